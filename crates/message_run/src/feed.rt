ghost use Rattle.std.specs.Prelude.{◌≡◌, ◌+◌, ◌<◌, ◌≤◌, ◌^◌, ◌++◌, List, ℕ, length, drop, IfSome, IfNone};
ghost use Rattle.grpc_framing.specs.declared.front.Front.TheVariants.{NeedMore};
ghost use Rattle.grpc_framing.specs.Framing.{front_at};
ghost use Rattle.message_run.specs.Behaviour.{Behaviour};
ghost use Rattle.message_run.specs.Outcomes.{MAX_MESSAGE_SIZE};
ghost use Rattle.message_run.specs.Reading.{HandledSoFar, FeedsBytes, IsOfMessages};

use crate::message_handler::{Handled, MessageHandler};
use crate::stop::Stop;
use grpc_framing::{Front, front_of};

/// How many bytes a message may have.
const MAX_MESSAGE_SIZE: u32 = 4_194_304;

// Drops the first bytes.
fn drop_front(bytes: &mut Vec<u8>, count: usize)
    requires { count ≤ length bytes.old.items }
    ensures { bytes.new.items ≡ drop count bytes.old.items }
{
    if count == 0 {
        return;
    }
    let rest = bytes.len() - count;
    bytes.copy_within(count.., 0);
    bytes.truncate(rest);
}

/// Hands every whole message that is held to the server, which appends its answers to `out`. The held bytes begin at `start` in
/// the input.
pub fn feed<A: MessageHandler>(
    server: &mut A,
    start: u64,
    held: &mut Vec<u8>,
    out: &mut Vec<u8>,
) -> Option<Stop>
    requires reads { (so_far : Behaviour) × (bytes sent : List ℕ) × A.shows server.old so_far ×
        HandledSoFar so_far (A.stands server.old so_far) bytes held.old.items (sent ++ out.old.items)
        × (length bytes ≡ start + length held.old.items) }
    requires short { start + length held.old.items < 2 ^ 61 }
    ensures became { (first : A) → A.became first server.old → A.became first server.new }
    ensures feeds { (so_far : Behaviour) (bytes sent : List ℕ) → A.shows server.old so_far →
        HandledSoFar so_far (A.stands server.old so_far) bytes held.old.items (sent ++ out.old.items) →
        length bytes ≡ start + length held.old.items →
        FeedsBytes (A.shows server.new) (A.stands server.new) result bytes held.new.items (sent ++ out.new.items) }
    ensures partial { IfNone result (front_at MAX_MESSAGE_SIZE held.new.items ≡ NeedMore) }
    ensures kinds { IfSome result IsOfMessages }
{
    let mut at = 0;
    loop {
        let (_, rest) = held.split_at(at);
        match front_of(MAX_MESSAGE_SIZE, rest) {
            Front::Message(size) => {
                let (_, text) = rest.split_at(5);
                let (message, _) = text.split_at(size);
                match server.handle(message, out) {
                    Handled::Continue => at += 5 + size,
                    Handled::Ends(code) => return Some(Stop::Refused(code)),
                    Handled::Unreadable(place) => {
                        return Some(Stop::Unreadable(
                            start as u128 + at as u128 + 5 + place as u128,
                        ));
                    }
                    Handled::NoMemory => return Some(Stop::NoMemory),
                }
            }
            Front::NeedMore => break,
            Front::Compressed => return Some(Stop::Unreadable(start as u128 + at as u128)),
            Front::TooLong => return Some(Stop::Unreadable(start as u128 + at as u128)),
        }
    }
    drop_front(held, at);
    None
}
