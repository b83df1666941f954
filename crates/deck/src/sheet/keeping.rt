// Between the boundary's sheet and a log's own.
ghost use Rattle.std.specs.Prelude.{◌≡◌};
ghost use Rattle.deck.specs.Of.{OwnSheet, sheet_kept};

use crate::fault::DeckFault;
use crate::sheet::DeckSheet;
use firing_log::Sheet;

impl TryFrom<DeckSheet> for Sheet {
    type Error = DeckFault;

    ghost try_from_gives = { OwnSheet };

    fn try_from(kept: DeckSheet) -> Result<Sheet, DeckFault> {
        Sheet::resume(kept.capacity, kept.count).ok_or(DeckFault::NoSheet)
    }
}

impl From<Sheet> for DeckSheet {
    ghost from_gives = { λ own kept. kept ≡ sheet_kept own };

    fn from(own: Sheet) -> DeckSheet {
        DeckSheet {
            capacity: own.capacity(),
            count: own.count(),
        }
    }
}
