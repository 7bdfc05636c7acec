//! Histories made by answering commands.
ghost use Rattle.std.specs.Prelude.{◌≡◌, IfOk};
ghost use Rattle.table_model.specs.ServerHistory.{history_of};

use crate::event::Event;
use crate::reply::reply_of;
use std::alloc::{AllocError, Global};
use std::marker::Model;
use table_model::{Command, Config};

/// Events, seen as a list: the newest first.
#[derive(Drop)]
pub struct History {
    events: Vec<Event>,
}

impl Model for History {
    ghost use Rattle.std.specs.Prelude.{List};
    ghost use Rattle.table_model.specs.Event as history;

    ghost Value = { List history.Event };

    ghost view = { λ h. h.events.items };
}

impl History {
    /// The events, the newest first.
    pub fn as_slice(&self) -> &[Event]
        ensures { result.now ≡ self.now }
    {
        self.events.as_slice()
    }
}

/// The history that the server with one thread makes of the commands, from nothing. It fails where there is no
/// memory for the definitions' lists.
pub fn run_commands(
    alloc: Global,
    config: Config,
    commands: Vec<Command>,
) -> Result<History, AllocError>
    ensures { IfOk result (λ made. made ≡ history_of config commands.items) }
{
    let mut events = Vec::new(alloc);
    for command in commands {
        let reply = reply_of(alloc, config, &events, &command)?;
        events.insert(0, Event { command, reply })?;
    }
    Ok(History { events })
}
