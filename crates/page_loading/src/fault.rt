//! Why a page was not loaded.
ghost use Rattle.std.specs.Prelude.{◌≡◌};
ghost use Rattle.page_loading.specs.declared.fault.LoadFault.TheVariants.{NoMemory};
ghost use Rattle.page_loading.specs.Faults as faults;

use js_parser::ScriptFault;
use js_tree::Program;
use page_reader::PageFault;
use std::alloc::{AllocError, AllocFailed};
use thiserror::Error;

/// Why a page was not loaded. A lack of memory is always `NoMemory`, and never the `NoMemory` of a
/// `PageFault` or a `ScriptFault`.
#[derive(Clone, Copy, Debug, PartialEq, Eq, Error)]
pub enum LoadFault {
    /// The bytes are not a page: the rule that they break, and the byte at which.
    #[error("{0}")]
    Page(PageFault),
    /// The script of this number, in tree order from 0, is the first that is not a program; why, with
    /// its place as a byte of the script.
    #[error("in script {0}, {1}")]
    Script(u32, ScriptFault),
    /// The allocator refused.
    #[error("out of memory")]
    NoMemory,
}

impl From<AllocError> for LoadFault {
    ghost from_gives = { λ _ fault. fault ≡ NoMemory };

    fn from(_: AllocError) -> LoadFault {
        LoadFault::NoMemory
    }
}

impl From<AllocFailed<Program>> for LoadFault {
    ghost from_gives = { λ _ fault. fault ≡ NoMemory };

    fn from(_: AllocFailed<Program>) -> LoadFault {
        LoadFault::NoMemory
    }
}

impl From<PageFault> for LoadFault {
    ghost from_gives = { λ given fault. fault ≡ faults.of_page given };

    fn from(fault: PageFault) -> LoadFault {
        match fault {
            PageFault::Rule(_, _) => LoadFault::Page(fault),
            PageFault::NoMemory => LoadFault::NoMemory,
        }
    }
}

impl LoadFault {
    /// The fault of a page whose script of this number has this fault.
    pub(crate) fn of_script(index: u32, fault: ScriptFault) -> LoadFault
        ensures { result ≡ faults.of_script index fault }
    {
        match fault {
            ScriptFault::NoMemory => LoadFault::NoMemory,
            fault => LoadFault::Script(index, fault),
        }
    }
}
