ghost use Rattle.std.specs.Prelude.{◌≡◌, ◌⊎◌, ◌≤◌, ◌<◌, List, ℕ, Some, None};
ghost use Rattle.std.specs.Prelude.{true, false, length, map, slice_get, slice_index_or, string_bytes, take, drop};
ghost use Rattle.rig_io.specs.Fault.{HasCause, StaysUnless, HasRisen};
ghost use Rattle.message_run.specs.Runs.{IsStatus, told};
ghost use Rattle.message_run.specs.Written.{Wrote, WrotePart};
ghost use Rattle.apply_path.specs.Applied.{Applies};
ghost use Rattle.inline_worker.specs.Works.{device_told};
ghost use Rattle.gribi_words.specs.Grammar.{wish_in};
ghost use Rattle.gribi_words.specs.declared.wish.Wish.TheVariants.{Apply, Serve};
ghost use Rattle.serve_command.specs.Served.{IsClosedOver, Serves, around};
ghost use Rattle.gribi_program.specs.Wishes.{reads_input, usage_line, uses_acceptor};
ghost use Rattle.gribi_program.specs.Settings.{setting_with};

use aft_entries::Device;
use apply_path::{apply_stream, write_all};
use call_answers::Setting;
use gribi_words::{Wish, Words, WordsFault, read_words};
use rig_io::{Acceptor, Clock, Sink, Source};
use schema_numbers::default_numbering;
use serve_command::{Order, serve};
use std::alloc::Global;
use std::sync::Wait;
use std::thread::Threads;

// Writes the usage line.
fn write_usage<K: Sink>(output: &mut K)
    ensures whole { Wrote (K.placed output.old) usage_line (K.placed output.new) ⊎ HasRisen (K.faults output.old) (K.faults output.new) }
    ensures part { WrotePart (K.placed output.old) usage_line (K.placed output.new) }
    ensures later { K.faults output.old ≤ K.faults output.new }
{
    let _ = write_all(output, b"usage: gribi apply | serve\n");
}

// `apply` with these network instances.
fn apply<S: Source, K: Sink, D: Device>(
    alloc: Global,
    instances: Words,
    input: &mut S,
    output: &mut K,
    device: &mut D,
) -> u8
    ensures applies { Applies (setting_with instances) result (told S.taken S.left K.placed input.old input.new output.old output.new)
        (device_told D.faults D.contents device.old device.new) }
    ensures status { IsStatus result }
    ensures read { HasCause (S.faults input.old) (S.faults input.new) (result ≡ 4) }
    ensures read_stays { StaysUnless (S.faults input.old) (S.faults input.new) (result ≡ 4) }
    ensures write { HasCause (K.faults output.old) (K.faults output.new) (result ≡ 5) }
    ensures write_stays { StaysUnless (K.faults output.old) (K.faults output.new) (result ≡ 5) }
{
    let Ok(numbering) = default_numbering(alloc) else {
        return 6;
    };
    let setting = Setting {
        numbering,
        instances,
    };
    apply_stream(alloc, &setting, input, output, device)
}

// `serve` with these network instances.
fn serve_by<
    R: Threads + Wait + Sync,
    K: Sink,
    A: Acceptor,
    D: Device + Drop + Send,
    C: Clock + Send,
>(
    rt: &R,
    alloc: Global,
    order: &Order,
    instances: Words,
    output: &mut K,
    acceptor: &mut A,
    devices: &mut Vec<D>,
    clock: &mut C,
) -> u8
    requires took { A.retired_count acceptor.old ≤ A.given_count acceptor.old }
    requires some { 1 ≤ order.now.workers }
    requires few { order.now.workers ≤ 16 }
    requires devices { order.now.workers ≤ length devices.old.items }
    ensures serves { Serves (IsClosedOver C A.Link.pieces A.Link.faults D.contents D.faults (setting_with instances) order.now.connections order.now.workers
        (around A.given_count A.retired_count A.given A.retired A.faults acceptor.old devices.old.items)
        (around A.given_count A.retired_count A.given A.retired A.faults acceptor.new devices.new.items))
        (around A.given_count A.retired_count A.given A.retired A.faults acceptor.old devices.old.items)
        (around A.given_count A.retired_count A.given A.retired A.faults acceptor.new devices.new.items)
        (K.placed output.old) (K.placed output.new) result }
    ensures accept { HasCause (A.faults acceptor.old) (A.faults acceptor.new) (result ≡ 8) }
    ensures write { HasCause (K.faults output.old) (K.faults output.new) (result ≡ 5) }
    ensures write_stays { StaysUnless (K.faults output.old) (K.faults output.new) (result ≡ 5) }
{
    let Ok(numbering) = default_numbering(alloc) else {
        return 6;
    };
    let setting = Setting {
        numbering,
        instances,
    };
    serve(rt, alloc, order, &setting, output, acceptor, devices, clock)
}

/// All that the program does: 2 for words that are no command, else what the command answers, and 6 for want of memory.
///
/// `apply` answers 0 where its input is read and answered to its end, 3 where it can't be read, 4 and 5 where the input or the
/// output failed, and 7 where a reply ended the stream. With 3 and 7 a last item tells the place or the status number. It programs
/// the first of the devices, each of which begins empty, and reads no clock: a moment is a message's place.
///
/// `serve` answers 0 where all links were served, 5 where its line could not be written, 8 where the acceptor failed, and 14 where
/// a call of the table's lock was Spent. It may wait.
pub fn gribi_main<
    R: Threads + Wait + Sync,
    S: Source,
    K: Sink,
    A: Acceptor,
    D: Device + Drop + Send,
    C: Clock + Send,
>(
    rt: &R,
    alloc: Global,
    words: &[String],
    input: &mut S,
    output: &mut K,
    acceptor: &mut A,
    devices: &mut Vec<D>,
    clock: &mut C,
) -> u8
    requires devices { 16 ≤ length devices.old.items }
    requires took { A.retired_count acceptor.old ≤ A.given_count acceptor.old }
    // 2 only where the words are no command, and where they are none nothing else but want of memory. With 2 the usage line is
    // written, whole unless a write failed, and with 6 nothing is.
    ensures words { result ≡ 2 → wish_in (map string_bytes words.now) ≡ None }
    ensures refused { wish_in (map string_bytes words.now) ≡ None → (result ≡ 2) ⊎ (result ≡ 6) }
    ensures silent { wish_in (map string_bytes words.now) ≡ None → result ≡ 6 → output.new ≡ output.old }
    ensures usage_line { result ≡ 2 →
        Wrote (K.placed output.old) usage_line (K.placed output.new) ⊎ HasRisen (K.faults output.old) (K.faults output.new) }
    ensures usage_part { result ≡ 2 → WrotePart (K.placed output.old) usage_line (K.placed output.new) }
    // Input and acceptor are left alone by all that don't use them, and all devices but the first by all but `serve`.
    ensures unread { reads_input (wish_in (map string_bytes words.now)) ≡ false → input.new ≡ input.old }
    ensures unserved { uses_acceptor (wish_in (map string_bytes words.now)) ≡ false → acceptor.new ≡ acceptor.old }
    ensures unprogrammed { wish_in (map string_bytes words.now) ≡ None → devices.new.items ≡ devices.old.items }
    ensures others { uses_acceptor (wish_in (map string_bytes words.now)) ≡ false → drop 1 devices.new.items ≡ drop 1 devices.old.items }
    // `apply` writes the answers of the one-thread server: a function of the bytes that were taken, and of what the first device
    // said, and of the input, where the source tells it.
    ensures applies { (names : List (List ℕ)) (first : D) → wish_in (map string_bytes words.now) ≡ Some (Apply names)
        → slice_get devices.old.items 0 ≡ Some first
        → Applies (setting_with names) result (told S.taken S.left K.placed input.old input.new output.old output.new)
        (device_told D.faults D.contents first (slice_index_or devices.new.items 0 first)) }
    ensures apply_status { (names : List (List ℕ)) → wish_in (map string_bytes words.now) ≡ Some (Apply names) → IsStatus result }
    // `serve` serves so many links, over a table with these names and so many workers.
    ensures serves { (listen : List ℕ) (connections : ℕ) (names : List (List ℕ)) (workers reactors : ℕ)
        → wish_in (map string_bytes words.now) ≡ Some (Serve listen connections names workers reactors)
        → Serves (IsClosedOver C A.Link.pieces A.Link.faults D.contents D.faults (setting_with names) connections workers
        (around A.given_count A.retired_count A.given A.retired A.faults acceptor.old devices.old.items)
        (around A.given_count A.retired_count A.given A.retired A.faults acceptor.new devices.new.items))
        (around A.given_count A.retired_count A.given A.retired A.faults acceptor.old devices.old.items)
        (around A.given_count A.retired_count A.given A.retired A.faults acceptor.new devices.new.items)
        (K.placed output.old) (K.placed output.new) result }
    // Each failure has its cause.
    ensures read { HasCause (S.faults input.old) (S.faults input.new) (result ≡ 4) }
    ensures read_stays { StaysUnless (S.faults input.old) (S.faults input.new) (result ≡ 4) }
    ensures accept { HasCause (A.faults acceptor.old) (A.faults acceptor.new) (result ≡ 8) }
    ensures write { HasCause (K.faults output.old) (K.faults output.new) (result ≡ 5) }
    // A failed write is told by 5, unless the words are no command.
    ensures write_stays { StaysUnless (K.faults output.old) (K.faults output.new) ((result ≡ 2) ⊎ (result ≡ 5)) }
{
    match read_words(alloc, words) {
        Err(WordsFault::NoMemory) => 6,
        Err(WordsFault::NotInGrammar) => {
            write_usage(output);
            2
        }
        Ok(Wish::Apply { instances }) => apply(alloc, instances, input, output, &mut devices[0]),
        Ok(
            Wish::Serve {
                listen,
                connections,
                instances,
                workers,
                reactors: _,
            },
        ) => {
            let order = Order {
                listen,
                connections,
                workers,
            };
            serve_by(
                rt, alloc, &order, instances, output, acceptor, devices, clock,
            )
        }
    }
}
