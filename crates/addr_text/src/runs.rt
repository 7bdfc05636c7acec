ghost use Rattle.std.specs.Prelude.{◌≡◌, ◌≤◌, ◌+◌, length};
ghost use Rattle.addr_text.specs.Printed as spec;

/// The place and the length of the longest run of zero groups, the first of equal ones.
#[tactic(auto, using(crate::proofs::Longest::zeros_step, crate::proofs::Longest::longest_step, crate::proofs::Longest::place_step))]
pub fn longest_run(groups: &[u16]) -> (usize, usize)
    ensures run { result.1 ≡ spec.longest groups.now }
    ensures place { result.0 ≡ spec.place_of (spec.longest groups.now) groups.now }
    ensures within { result.0 + result.1 ≤ length groups.now }
{
    let mut left = groups.len();
    let mut place = left;
    let mut best = 0;
    let mut run = 0;
    'groups: while left > 0 {
        left -= 1;
        if groups[left] == 0 {
            run += 1;
        } else {
            run = 0;
        }
        if run >= best {
            place = left;
            best = run;
        }
    }
    (place, best)
}
