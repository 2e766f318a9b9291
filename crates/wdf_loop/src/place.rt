ghost use Rattle.std.specs.Prelude.{◌≡◌, ℕ, ◌<◌, length, MatchOption};
ghost use Rattle.wdf_loop.specs.Layouts.{mark_at, share_at, ShowsSlot};
ghost use Rattle.wdf_loop.specs.Places.{Holds};

use crate::field::Field;
use crate::mark::Mark;
use crate::share::Share;

/// Where the value of a slot stands: a number of the cell of a stage.
#[derive(Clone, Copy, Debug, PartialEq, Eq)]
pub(crate) struct Place {
    pub(crate) stage: usize,
    pub(crate) field: Field,
}

// The number of a stage that is the slot's value.
fn field_of(share: Share, mark: Mark, slot: u16) -> Option<Field>
    ensures { MatchOption result (ShowsSlot share mark slot → ⊥) (λ field. Holds field share mark slot) }
{
    if mark.up == slot {
        return Some(Field::Up);
    }
    if mark.below == slot {
        return Some(Field::Below);
    }
    if mark.down == slot {
        return Some(Field::Down);
    }
    if mark.onward == slot {
        return Some(Field::Onward);
    }
    if share.parallel && mark.raw == slot {
        return Some(Field::Raw);
    }
    None
}

// Where the value of the slot stands, if a stage shows it.
fn place_of(shares: &[Share], marks: &[Mark], slot: u16) -> Option<Place>
    requires { length shares.now ≡ length marks.now }
    ensures { MatchOption result
        ((j : ℕ) → j < length marks.now → ShowsSlot (share_at shares.now j) (mark_at marks.now j) slot → ⊥)
        (λ place. (place.stage < length marks.now) × Holds place.field (share_at shares.now place.stage) (mark_at marks.now place.stage) slot) }
{
    for stage in 0..marks.len() {
        if let Some(field) = field_of(shares[stage], marks[stage], slot) {
            return Some(Place { stage, field });
        }
    }
    None
}

/// Where the value of the slot stands, which some stage shows.
pub(crate) fn place_shown(shares: &[Share], marks: &[Mark], slot: u16) -> Place
    requires each { length shares.now ≡ length marks.now }
    requires shown { (j : ℕ) × ((j < length marks.now) × ShowsSlot (share_at shares.now j) (mark_at marks.now j) slot) }
    ensures within { result.stage < length marks.now }
    ensures value { Holds result.field (share_at shares.now result.stage) (mark_at marks.now result.stage) slot }
{
    match place_of(shares, marks, slot) {
        Some(place) => place,
        None => unreachable!(),
    }
}
