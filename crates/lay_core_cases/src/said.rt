//! What a core answers, as a case writes it.

use crate::keys::key_of;
use lay_case_reading::Said;
use lay_cells::{Finished, Released};
use lay_core::{IdleKind, Publish, Tally};
use lay_units::NoMemory;
use std::alloc::Global;

pub(crate) fn settled(answer: Result<(), NoMemory>) -> Said {
    match answer {
        Ok(()) => Said::Word("done"),
        Err(NoMemory) => Said::LACKS,
    }
}

pub(crate) fn published(answer: Publish) -> Said {
    match answer {
        Publish::Published(version) => Said::Numbered("published", version),
        Publish::Unsettled(key) => Said::Keyed("unsettled", key_of(key)),
        Publish::NoMemory => Said::LACKS,
    }
}

pub(crate) fn released(answer: Released) -> Said {
    match answer {
        Released::Released => Said::Word("released"),
        Released::Superseded(last) => Said::Numbered("superseded", last),
        Released::Gone => Said::Word("gone"),
    }
}

pub(crate) fn finished(answer: Finished) -> Said {
    match answer {
        Finished::Cleaned => Said::Word("cleaned"),
        Finished::Stored => Said::Word("stored"),
        Finished::Superseded(last) => Said::Numbered("superseded", last),
        Finished::Gone => Said::Word("gone"),
    }
}

pub(crate) fn idle(kind: IdleKind) -> Said {
    match kind {
        IdleKind::Settled => Said::Word("settled"),
        IdleKind::Busy(number) => Said::Numbered("busy", number),
        IdleKind::Spent => Said::Word("spent"),
    }
}

pub(crate) fn tally(alloc: Global, tally: &Tally) -> Result<Said, NoMemory> {
    Ok(Said::Text(format!(in alloc;
        "cleaned {} stored {} superseded {} gone {} back {}",
        tally.cleaned(),
        tally.stored(),
        tally.superseded(),
        tally.gone(),
        tally.back()
    )?))
}
