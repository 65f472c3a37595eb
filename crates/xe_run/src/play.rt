//! Playing a scene from its first command to its last.
ghost use Rattle.std.specs.Prelude.{◌≡◌, ◌≤◌, Err};
ghost use Rattle.xe_mem.specs.Layout.{IsLayout};
ghost use Rattle.xe_run.specs.Told.{Rose};
ghost use Rattle.xe_run.specs.Text.{text};
ghost use Rattle.xe_run.specs.Drive as spec;
ghost use Rattle.xe_run.specs.Plays.{Plays};

use crate::driver::Driver;
use crate::outside::{Failed, Sink};
use std::alloc::Global;
use xe_base::NoMemory;
use xe_scene::Scene;

/// Why a scene wasn't played to its end.
#[derive(Clone, Copy, Debug, PartialEq, Eq)]
pub(crate) enum PlayFault {
    /// Memory was refused; nothing was written.
    NoMemory,
    /// A write failed.
    Write,
}

/// Obeys the commands of a scene, and writes the line of each event.
pub(crate) fn play<K: Sink>(alloc: Global, scene: &Scene, out: &mut K) -> Result<(), PlayFault>
    requires { IsLayout scene.now.regions.items }
    ensures writes { Plays result (K.written out.old) (text (spec.drive scene.now.regions.items scene.now.commands)) (K.written out.new) }
    ensures count { K.faults out.old ≤ K.faults out.new }
    ensures failed { result ≡ Err PlayFault.Write → Rose (K.faults out.old) (K.faults out.new) }
{
    let mut driver = match Driver::new(alloc, scene) {
        Ok(driver) => driver,
        Err(NoMemory) => return Err(PlayFault::NoMemory),
    };
    match driver.obey_all(&scene.commands, out) {
        Ok(()) => Ok(()),
        Err(Failed) => Err(PlayFault::Write),
    }
}
