ghost use Rattle.std.specs.Prelude.{◌≡◌, IfOk};
ghost use Rattle.cmd_words.specs.Asked.{driver_asked};
ghost use Rattle.cmd_words.specs.Known.{IsKnown};

use cache_types::{Driver, NoMemory};
use cmd_words::Command;
use std::alloc::Global;

/// The driver that a command's words name.
pub fn driver_of(alloc: Global, command: &Command) -> Result<Driver, NoMemory>
    requires { IsKnown command.now }
    ensures { IfOk result (λ driver. driver ≡ driver_asked command.now) }
{
    match Driver::new(alloc, command.id(), command.gpu(), command.flags()) {
        Ok(driver) => Ok(driver),
        Err(_) => Err(NoMemory),
    }
}
