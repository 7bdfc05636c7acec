//! Which table and which setting a server has.
ghost use Rattle.std.specs.Prelude.{◌≡◌};

use call_answers::Setting;
use rib_core::RibCore;
use std::marker::{Brand, PhantomData};
use table_lock::TableLock;

/// Names the lock over the table, and the setting. Each run of a server picks both.
pub trait Naming {
    ghost use Rattle.table_lock.specs.Passes.{LockView};
    ghost use Rattle.table_model.specs.declared.command.Config.{Config};
    ghost use Rattle.call_answers.specs.declared.orders.Setting.{Setting as SettingView};

    /// The lock over the table.
    ghost lock: { LockView Config };

    /// The setting.
    ghost setting: { SettingView };
}

impl Naming for Brand {
    ghost use Rattle.gribi_serve.specs.Named.{unnamed_lock, unnamed_setting};

    ghost lock = { unnamed_lock };

    ghost setting = { unnamed_setting };
}

/// The lock over the table and the setting, which all connections of a server share.
#[derive(Drop)]
pub struct Room<'a, N: Naming> {
    pub(crate) lock: &'a TableLock<RibCore>,
    pub(crate) setting: &'a Setting,
    of: PhantomData<N>,
    pub ghost lock_is: { lock.now ≡ N.lock },
    pub ghost setting_is: { setting.now ≡ N.setting },
}

impl<'a, N: Naming> Room<'a, N> {
    /// The lock and the setting that are named so.
    pub fn new(lock: &'a TableLock<RibCore>, setting: &'a Setting) -> Room<'a, N>
        requires lock { lock.now ≡ N.lock }
        requires setting { setting.now ≡ N.setting }
    {
        Room {
            lock,
            setting,
            of: PhantomData,
        }
    }

    // The same, for another connection.
    pub(crate) fn again(&self) -> Room<'a, N> {
        Room {
            lock: self.lock,
            setting: self.setting,
            of: PhantomData,
        }
    }
}
