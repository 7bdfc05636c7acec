ghost use Rattle.std.specs.Prelude.{◌≡◌};
ghost use Rattle.table_model.specs.Event as history;

use std::marker::Model;
use table_model::{Command, Reply};

/// A command and its reply.
#[derive(Drop)]
pub struct Event {
    /// What was asked.
    pub command: Command,
    /// What was answered.
    pub reply: Reply,
}

impl Model for Event {
    ghost use Rattle.table_model.specs.Event as history;

    ghost Value = { history.Event };

    ghost view = { λ e. record { command = e.command; reply = e.reply } };
}

pub(crate) fn is_began(reply: &Reply) -> bool
    ensures { result ≡ history.is_began reply.now }
{
    match reply {
        Reply::Began(_) => true,
        _ => false,
    }
}

pub(crate) fn is_params_set(reply: &Reply) -> bool
    ensures { result ≡ history.is_params_set reply.now }
{
    match reply {
        Reply::ParamsSet => true,
        _ => false,
    }
}

pub(crate) fn is_announced(reply: &Reply) -> bool
    ensures { result ≡ history.is_announced reply.now }
{
    match reply {
        Reply::Announced(_) => true,
        _ => false,
    }
}

pub(crate) fn is_done(reply: &Reply) -> bool
    ensures { result ≡ history.is_done reply.now }
{
    match reply {
        Reply::RibDone => true,
        _ => false,
    }
}

pub(crate) fn is_left(reply: &Reply) -> bool
    ensures { result ≡ history.is_left reply.now }
{
    match reply {
        Reply::Left => true,
        _ => false,
    }
}

pub(crate) fn is_flushed(reply: &Reply) -> bool
    ensures { result ≡ history.is_flushed reply.now }
{
    match reply {
        Reply::Flushed(_) => true,
        _ => false,
    }
}

pub(crate) fn is_reported(reply: &Reply) -> bool
    ensures { result ≡ history.is_reported reply.now }
{
    match reply {
        Reply::Reported => true,
        _ => false,
    }
}

pub(crate) fn is_halt_done(reply: &Reply) -> bool
    ensures { result ≡ history.is_halt_done reply.now }
{
    match reply {
        Reply::HaltDone => true,
        _ => false,
    }
}
