ghost use Rattle.std.specs.Prelude.{◌≡◌, ◌==◌};
ghost use Rattle.std.specs.List.{count_by};
ghost use Rattle.gribi_messages.specs.declared.response.AftResult.{AftResult};
ghost use Rattle.line_verdicts.specs.Items as spec;

use gribi_messages::{AftResult, ModifyResponse};
use schema_numbers::{Numbering, ValueName};

/// How many results there were of each kind. A count stops at 2^64 - 1.
#[derive(Clone, Copy, Debug, PartialEq, Eq)]
pub struct Tally {
    pub rib: u64,
    pub fib: u64,
    pub failed: u64,
}

fn is_failed(n: &Numbering, r: &AftResult) -> bool
    ensures { result ≡ spec.is_failed n.now r.now }
{
    r.status == n.value(ValueName::ResultStatusFailed)
        || r.status == n.value(ValueName::ResultStatusFibFailed)
}

fn count_status(status: u64, results: &[AftResult]) -> u64
    ensures { result ≡ count_by (λ (r : AftResult). r.status == status) results.now }
{
    results.iter().filter(|r| r.status == status).count() as u64
}

fn count_failed(n: &Numbering, results: &[AftResult]) -> u64
    ensures { result ≡ count_by (spec.is_failed n.now) results.now }
{
    results.iter().filter(|r| is_failed(n, r)).count() as u64
}

impl Tally {
    /// No results.
    pub fn new() -> Tally
        ensures { result ≡ record { rib = 0; fib = 0; failed = 0 } }
    {
        Tally {
            rib: 0,
            fib: 0,
            failed: 0,
        }
    }

    /// Counts the results of an answer of a Modify call.
    pub fn count(&mut self, n: &Numbering, r: &ModifyResponse)
        ensures rib { self.new.rib ≡ spec.counted self.old.rib (count_by (spec.is_rib n.now) r.now.results) }
        ensures fib { self.new.fib ≡ spec.counted self.old.fib (count_by (spec.is_fib n.now) r.now.results) }
        ensures failed { self.new.failed ≡ spec.counted self.old.failed (count_by (spec.is_failed n.now) r.now.results) }
    {
        let results = r.results.as_slice();
        let rib = count_status(n.value(ValueName::ResultStatusRibProgrammed), results);
        let fib = count_status(n.value(ValueName::ResultStatusFibProgrammed), results);
        self.rib = self.rib.saturating_add(rib);
        self.fib = self.fib.saturating_add(fib);
        self.failed = self.failed.saturating_add(count_failed(n, results));
    }
}
