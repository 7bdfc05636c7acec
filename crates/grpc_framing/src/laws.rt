ghost use Rattle.std.specs.Prelude.{◌≡◌, ◌≤◌, ◌<◌, ◌^◌, ◌+◌, ◌++◌, ℕ, List, All, length, take, drop};
ghost use Rattle.grpc_framing.specs.declared.front.Front.TheVariants.{Message, NeedMore, Compressed, TooLong};
ghost use Rattle.grpc_framing.specs.Framing.{front_at, messages_of, first_then, stopped, all_then, items};

/// How the cut of a stream goes on from what is held of it, whatever follows.
pub fn cut_goes_on()
    ensures message { (limit n : ℕ) (held more : List ℕ) → front_at limit held ≡ Message n →
        messages_of limit (held ++ more)
        ≡ first_then (take n (drop 5 held)) (messages_of limit (drop (5 + n) held ++ more)) }
    ensures compressed { (limit : ℕ) (held more : List ℕ) → front_at limit held ≡ Compressed →
        messages_of limit (held ++ more) ≡ stopped (held ++ more) Compressed }
    ensures too_long { (limit : ℕ) (held more : List ℕ) → front_at limit held ≡ TooLong →
        messages_of limit (held ++ more) ≡ stopped (held ++ more) TooLong }
    ensures need_more { (limit : ℕ) (held : List ℕ) → front_at limit held ≡ NeedMore →
        messages_of limit held ≡ stopped held NeedMore }
{}

/// What stands at the front stays there, whatever follows, unless more was needed. So a refusal is
/// the answer from then on.
pub fn front_stays()
    ensures message { (limit n : ℕ) (held more : List ℕ) → front_at limit held ≡ Message n →
        front_at limit (held ++ more) ≡ Message n }
    ensures compressed { (limit : ℕ) (held more : List ℕ) → front_at limit held ≡ Compressed →
        front_at limit (held ++ more) ≡ Compressed }
    ensures too_long { (limit : ℕ) (held more : List ℕ) → front_at limit held ≡ TooLong →
        front_at limit (held ++ more) ≡ TooLong }
{}

/// Messages that were written are cut again, whatever follows them.
pub fn written_messages_are_cut()
    ensures { (limit : ℕ) (messages : List (List ℕ)) (more : List ℕ) → limit < 2 ^ 32 →
        All (λ message. length message ≤ limit) messages →
        messages_of limit (items messages ++ more) ≡ all_then messages (messages_of limit more) }
{}

/// A cut is the bytes again. Each of its messages is within the limit, and its ending is what
/// stands at the front of the rest, which is no message.
pub fn cut_is_whole()
    ensures again { (limit : ℕ) (bytes : List ℕ) → All (λ byte. byte < 256) bytes →
        let cut = messages_of limit bytes in items cut.messages ++ cut.rest ≡ bytes }
    ensures within { (limit : ℕ) (bytes : List ℕ) →
        All (λ message. length message ≤ limit) (messages_of limit bytes).messages }
    ensures ending { (limit : ℕ) (bytes : List ℕ) →
        let cut = messages_of limit bytes in front_at limit cut.rest ≡ cut.ending }
    ensures stops { (limit n : ℕ) (bytes : List ℕ) →
        (messages_of limit bytes).ending ≡ Message n → ⊥ }
{}

/// Whatever messages and rest spell the bytes, they are the cut, where each message is within the
/// limit and none stands at the front of the rest.
pub fn cut_is_the_only_one()
    ensures { (limit : ℕ) (messages : List (List ℕ)) (rest : List ℕ) → limit < 2 ^ 32 →
        All (λ message. length message ≤ limit) messages →
        ((n : ℕ) → front_at limit rest ≡ Message n → ⊥) →
        messages_of limit (items messages ++ rest) ≡ all_then messages (stopped rest (front_at limit rest)) }
{}
