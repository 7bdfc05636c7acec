//! What a session of one input does with its commands.
ghost use Rattle.std.specs.Prelude.{◌≡◌, ◌+◌, ◌<◌, ◌≤◌, ◌^◌, ◌∷◌, [], List, length, map, pos, IfOk};
ghost use Rattle.table_model.specs.Event.{Event};
ghost use Rattle.table_model.specs.declared.job.Verdict.{Verdict};
ghost use Rattle.inline_worker.specs.CoreAt.{CoreAt};
ghost use Rattle.inline_worker.specs.Turns.{reports};
ghost use Rattle.inline_worker.specs.Works.{device_told};
ghost use Rattle.call_answers.specs.Orders.{commands_of, operation_at, orders_of};
ghost use Rattle.apply_path.specs.Responses.{config_of};
ghost use Rattle.apply_path.specs.SessionAt.{Begun, HandlesFault, MessageDone, RunsCommands, TakesTurns, TurnsTaken};
ghost use Rattle.apply_path.specs.SessionAt.{params_commands, election_commands, header_commands};

use crate::step::{
    AnswerWriter, answer_operation, collect_all, discard_reply, do_command, is_out_of_memory,
    operate,
};
use aft_entries::{Device, checked_entries_fit};
use call_answers::{Setting, operations_in, read_header, read_operation};
use fib_worker::others_keep_shard;
use inline_worker::work_until_idle;
use message_run::Handled;
use proto_schema::MessageFault;
use rib_core::RibCore;
use schema_numbers::Numbering;
use std::alloc::{AllocError, Global};
use table_model::{AskedParams, Command, Config, Operation};

// Sets the parameters that are asked for.
fn do_params(
    n: &Numbering,
    core: &mut RibCore,
    asked: Option<AskedParams>,
    writer: &mut AnswerWriter,
) -> Handled
    requires stood { (config : Config) × (past : List Event) × CoreAt config core.old past }
    requires few { core.old.count ≤ 2 ^ 61 }
    ensures { RunsCommands n.now core.old core.new (params_commands asked) result writer.old.out.items writer.new.out.items }
{
    match asked {
        None => Handled::Continue,
        Some(asked) => {
            let command = Command::SetParams(0, asked);
            do_command(n, core, command, writer)
        }
    }
}

// Announces the election id.
fn do_election(
    n: &Numbering,
    core: &mut RibCore,
    election: Option<u128>,
    writer: &mut AnswerWriter,
) -> Handled
    requires stood { (config : Config) × (past : List Event) × CoreAt config core.old past }
    requires few { core.old.count ≤ 2 ^ 61 }
    ensures { RunsCommands n.now core.old core.new (election_commands election) result writer.old.out.items writer.new.out.items }
{
    match election {
        None => Handled::Continue,
        Some(id) => {
            let command = Command::Announce(0, id);
            do_command(n, core, command, writer)
        }
    }
}

#[inline(always)]
fn do_operation(
    n: &Numbering,
    core: &mut RibCore,
    operation: Operation,
    number: u64,
    writer: &mut AnswerWriter,
) -> Handled
    requires number { number < 2 ^ 62 }
    requires stood { (config : Config) × (past : List Event) × CoreAt config core.old past }
    ensures { RunsCommands n.now core.old core.new (Command.Operate 0 operation (pos number) ∷ []) result writer.old.out.items writer.new.out.items }
{
    let id = operation.id;
    let now = number as i64;
    let end = operate(core, operation, now);
    answer_operation(n, id, now, end, writer)
}

// Reads an operation, and does it.
#[inline(always)]
fn do_piece(
    setting: &Setting,
    core: &mut RibCore,
    piece: &[u8],
    number: u64,
    writer: &mut AnswerWriter,
) -> Handled
    requires number { number < 2 ^ 62 }
    requires stood { (config : Config) × (past : List Event) × CoreAt config core.old past }
    ensures { RunsCommands setting.now.numbering core.old core.new
        (Command.Operate 0 (operation_at setting.now piece.now) (pos number) ∷ [])
        result writer.old.out.items writer.new.out.items }
{
    match read_operation(writer.alloc, setting, piece) {
        Err(_) => Handled::NoMemory,
        Ok(operation) => do_operation(&setting.numbering, core, operation, number, writer),
    }
}

// Does the operations of a request. Each is done before the next is read, so that no list of them takes memory.
fn do_operations(
    setting: &Setting,
    core: &mut RibCore,
    request: &[u8],
    number: u64,
    writer: &mut AnswerWriter,
) -> Handled
    requires number { number < 2 ^ 62 }
    requires stood { (config : Config) × (past : List Event) × CoreAt config core.old past }
    requires few { core.old.count ≤ 2 ^ 61 }
    ensures { RunsCommands setting.now.numbering core.old core.new
        (map (λ operation. Command.Operate 0 operation (pos number)) (orders_of setting.now request.now).operations)
        result writer.old.out.items writer.new.out.items }
{
    let mut pieces = operations_in(setting, request);
    while let Some(piece) = pieces.next() {
        match do_piece(setting, core, piece, number, writer) {
            Handled::Continue => {}
            Handled::Ends(code) => return Handled::Ends(code),
            Handled::Unreadable(place) => return Handled::Unreadable(place),
            Handled::NoMemory => return Handled::NoMemory,
        }
    }
    Handled::Continue
}

// Sets the parameters, and announces the election id.
fn do_params_and_election(
    n: &Numbering,
    core: &mut RibCore,
    params: Option<AskedParams>,
    election: Option<u128>,
    writer: &mut AnswerWriter,
) -> Handled
    requires stood { (config : Config) × (past : List Event) × CoreAt config core.old past }
    requires few { core.old.count ≤ 2 ^ 61 }
    ensures { RunsCommands n.now core.old core.new (header_commands params election) result writer.old.out.items writer.new.out.items }
{
    match do_params(n, core, params, writer) {
        Handled::Continue => do_election(n, core, election, writer),
        Handled::Ends(code) => Handled::Ends(code),
        Handled::Unreadable(place) => Handled::Unreadable(place),
        Handled::NoMemory => Handled::NoMemory,
    }
}

// The same of a request.
fn do_header(
    setting: &Setting,
    core: &mut RibCore,
    request: &[u8],
    writer: &mut AnswerWriter,
) -> Handled
    requires stood { (config : Config) × (past : List Event) × CoreAt config core.old past }
    requires few { core.old.count ≤ 2 ^ 61 }
    ensures { RunsCommands setting.now.numbering core.old core.new
        (header_commands (orders_of setting.now request.now).params (orders_of setting.now request.now).election)
        result writer.old.out.items writer.new.out.items }
{
    match read_header(writer.alloc, setting, request) {
        Err(_) => Handled::NoMemory,
        Ok((params, election)) => do_params_and_election(
            &setting.numbering,
            core,
            params,
            election,
            writer,
        ),
    }
}

// Does what a request orders, that can be read.
fn do_request(
    setting: &Setting,
    core: &mut RibCore,
    request: &[u8],
    number: u64,
    writer: &mut AnswerWriter,
) -> Handled
    requires number { number < 2 ^ 62 }
    requires stood { (config : Config) × (past : List Event) × CoreAt config core.old past }
    requires few { core.old.count ≤ 2 ^ 61 }
    ensures { RunsCommands setting.now.numbering core.old core.new
        (commands_of 0 (pos number) (orders_of setting.now request.now))
        result writer.old.out.items writer.new.out.items }
{
    match do_header(setting, core, request, writer) {
        Handled::Continue => do_operations(setting, core, request, number, writer),
        Handled::Ends(code) => Handled::Ends(code),
        Handled::Unreadable(place) => Handled::Unreadable(place),
        Handled::NoMemory => Handled::NoMemory,
    }
}

/// What a message comes to that can't be read.
pub fn unreadable(fault: MessageFault) -> Handled
    ensures { HandlesFault fault result }
{
    match fault {
        MessageFault::Wire(place, _) => Handled::Unreadable(place),
        MessageFault::Utf8(place) => Handled::Unreadable(place),
        MessageFault::NoMemory => Handled::NoMemory,
    }
}

/// A table in which the session has begun.
pub fn begun(alloc: Global, instances: u16) -> Result<RibCore, AllocError>
    requires { (1 ≤ instances) × (instances ≤ 256) }
    ensures { IfOk result (λ core. Begun instances core) }
{
    let config = Config {
        instances,
        workers: 1,
        limit: 1_000_000,
    };
    let mut core = RibCore::new(alloc, config)?;
    let reply = core.act(Command::Begin);
    let failed = is_out_of_memory(&reply);
    discard_reply(reply);
    if failed {
        return Err(AllocError);
    }
    Ok(core)
}

// What follows a message: the only worker takes its jobs until it has none, and then the session collects until nothing is
// outstanding.
fn do_turns<D: Device>(
    n: &Numbering,
    core: &mut RibCore,
    device: &mut D,
    number: u64,
    writer: &mut AnswerWriter,
) -> Handled
    requires number { number < 2 ^ 62 }
    requires rest { (config : Config) × (past : List Event) × CoreAt config core.old past × TakesTurns config past }
    ensures { (config : Config) (past : List Event) (said : List Verdict) → CoreAt config core.old past → TakesTurns config past
        → length said ≡ reports past
        → TurnsTaken n.now config (pos number) past said core.new (device_told D.faults D.contents device.old device.new)
        result writer.old.out.items writer.new.out.items }
{
    if !work_until_idle(core, device, number as i64) {
        return Handled::NoMemory;
    }
    collect_all(n, core, writer)
}

/// Does what a request orders, and the turns behind it where no reply ended the stream.
pub fn do_message<D: Device>(
    setting: &Setting,
    core: &mut RibCore,
    device: &mut D,
    request: &[u8],
    number: u64,
    writer: &mut AnswerWriter,
) -> Handled
    requires number { number < 2 ^ 62 }
    requires stood { (past : List Event) × CoreAt (config_of setting.now) core.old past × TakesTurns (config_of setting.now) past }
    requires few { core.old.count ≤ 2 ^ 61 }
    ensures { (past : List Event) (said : List Verdict) → CoreAt (config_of setting.now) core.old past → TakesTurns (config_of setting.now) past
        → length said ≡ reports past → MessageDone setting.now number request.now past said core.new
        (device_told D.faults D.contents device.old device.new) result writer.old.out.items writer.new.out.items }
{
    others_keep_shard();
    checked_entries_fit();
    match do_request(setting, core, request, number, writer) {
        Handled::Continue => do_turns(&setting.numbering, core, device, number, writer),
        Handled::Ends(code) => Handled::Ends(code),
        Handled::Unreadable(place) => Handled::Unreadable(place),
        Handled::NoMemory => Handled::NoMemory,
    }
}
