// A step on a record that its caller lends, by the call by value, and the same by value once more: the first use of `thin`'s theorems over
// one record, which fix the form of `step_mut` and `step_by_lending`. The record and its answer stand in for a cursor's.

ghost use Rattle.std.specs.Prelude.{◌≡◌};
ghost use Rattle.serves.specs.Lent.{stepped, LeavesPlace};

// What a step answers. It isn't an `Option`, since the theorem takes the answer as a type that the crate declares.
#[derive(Clone, Copy)]
pub enum Shown {
    Nothing,
    Document(u32),
}

// Where the reading stands: the document, and the one before it.
#[derive(Clone, Copy)]
pub struct Place {
    pub doc: u32,
    pub before: u32,
}

#[derive(Clone, Copy)]
pub struct Stepped {
    pub shown: Shown,
    pub place: Place,
}

// Goes to a document, and shows the one that it leaves; an empty image shows nothing.
#[tactic(auto, unfolding(crate::specs::Lent::stepped))]
pub fn step(place: Place, image: &[u8], doc: u32) -> Stepped
    ensures { result ≡ stepped place image.now doc }
{
    let next = Place {
        doc,
        before: place.doc,
    };
    if image.is_empty() {
        return Stepped {
            shown: Shown::Nothing,
            place: next,
        };
    }
    Stepped {
        shown: Shown::Document(place.doc),
        place: next,
    }
}

pub fn step_mut(place: &mut Place, image: &[u8], doc: u32) -> Shown
    ensures { LeavesPlace (stepped place.old image.now doc) result place.new }
{
    let m = step(*place, image, doc);
    *place = m.place;
    m.shown
}

pub fn step_by_lending(was: Place, image: &[u8], doc: u32) -> Stepped
    ensures { result ≡ stepped was image.now doc }
{
    let mut mine = was;
    let shown = step_mut(&mut mine, image, doc);
    Stepped { shown, place: mine }
}
