//! One step of the place.

ghost use Rattle.std.specs.Prelude.{◌≡◌};
ghost use Rattle.ber_core.specs.Cursor.{Gives, window};
ghost use Rattle.ber_core.specs.Window.{ended};
ghost use Rattle.request_wait.specs.Comes.{Comes};
ghost use Rattle.request_wait.specs.Inside.{inside, of_leaf, one, many_of, optional_of, choice_of, many_of_choice, some_of, skip_of, empty, start_of, by_form};

use crate::part::{Choice, Content, Form, Leaf, Part, TEXT};
use crate::place::Place;
use ber_core::{Cursor, ReadFault};
use ldap_requests::{count, message_id};

/// What comes of looking at the first element of a place.
pub(crate) enum Next {
    /// Some of its bytes have not come yet.
    Waits,
    /// Nothing is known.
    Unsure,
    /// This place is the next one in the same element.
    Goes(Place),
    /// The first place is inside the element there, the second one behind it.
    Enters(Place, Place),
    /// The element around the place ends here.
    Leaves,
}

/// The content of a leaf is all there, and in its range.
fn read_leaf(leaf: Leaf, w: Cursor) -> Result<(), ReadFault>
    ensures { Gives (λ u. u) result (of_leaf leaf (window w.entry)) }
{
    match leaf {
        Leaf::Octets => {
            w.octets()?;
        }
        Leaf::Int => {
            w.int()?;
        }
        Leaf::Boolean => {
            w.boolean()?;
        }
        Leaf::Count => {
            count(w)?;
        }
        Leaf::MessageId => {
            message_id(w)?;
        }
    }
    Ok(())
}

/// An element with this tag and such a content, and then the part.
fn one(place: Place, bytes: &[u8], tag: u8, content: Content, next: Part) -> Next
    ensures { Comes result (one tag content next) place bytes.now }
{
    let (inner, rest) = match place.cursor(bytes).open_as(tag) {
        Ok(found) => found,
        Err(ReadFault::More) => return Next::Waits,
        Err(_) => return Next::Unsure,
    };
    let rest = Place::of(next, rest);
    match content {
        Content::Inner(part) => {
            let inner = Place::of(part, inner);
            Next::Enters(inner, rest)
        }
        Content::Leaf(leaf) => match read_leaf(leaf, inner) {
            Ok(()) => Next::Goes(rest),
            Err(ReadFault::More) => Next::Waits,
            Err(_) => Next::Unsure,
        },
    }
}

/// As many elements with this tag as there are, up to the end.
fn many(place: Place, bytes: &[u8], tag: u8, content: Content) -> Next
    ensures { Comes result (many_of tag content place.part) place bytes.now }
{
    if place.at >= place.end {
        return Next::Leaves;
    }
    one(place, bytes, tag, content, place.part)
}

/// An element with this tag, which may be left out.
fn optional(
    place: Place,
    bytes: &[u8],
    tag: u8,
    content: Content,
    found: Part,
    missing: Part,
) -> Next
    ensures { Comes result (optional_of tag content found missing) place bytes.now }
{
    let without = Place {
        part: missing,
        start: place.start,
        at: place.at,
        end: place.end,
    };
    if place.at >= place.end {
        return Next::Goes(without);
    }
    match place.cursor(bytes).tag() {
        Ok(first) => {
            if first == tag {
                return one(place, bytes, tag, content, found);
            }
            Next::Goes(without)
        }
        Err(ReadFault::More) => Next::Waits,
        Err(_) => Next::Unsure,
    }
}

/// An element of the choice, and then the part.
fn one_of(place: Place, bytes: &[u8], choice: Choice, next: Part) -> Next
    ensures { Comes result (choice_of choice next place.part) place bytes.now }
{
    match place.cursor(bytes).tag() {
        Ok(tag) => match choice.content(tag) {
            Some(content) => one(place, bytes, tag, content, next),
            None => Next::Unsure,
        },
        Err(ReadFault::More) => Next::Waits,
        Err(_) => Next::Unsure,
    }
}

/// As many elements of the choice as there are, up to the end.
fn many_of_choice(place: Place, bytes: &[u8], choice: Choice) -> Next
    ensures { Comes result (many_of_choice choice place.part) place bytes.now }
{
    if place.at >= place.end {
        return Next::Leaves;
    }
    one_of(place, bytes, choice, place.part)
}

/// The part, if there is anything.
fn some(place: Place, bytes: &[u8], next: Part) -> Next
    ensures { Comes result (some_of next) place bytes.now }
{
    if place.at >= place.end {
        return Next::Unsure;
    }
    Next::Goes(Place {
        part: next,
        start: place.start,
        at: place.at,
        end: place.end,
    })
}

/// An element that is skipped, if one stands here.
fn skipped(place: Place, bytes: &[u8]) -> Next
    ensures { Comes result (skip_of place.part) place bytes.now }
{
    if place.at >= place.end {
        return Next::Leaves;
    }
    match place.cursor(bytes).tag() {
        Ok(tag) => one(place, bytes, tag, TEXT, place.part),
        Err(ReadFault::More) => Next::Waits,
        Err(_) => Next::Unsure,
    }
}

/// The end of the element around the place.
#[tactic(auto, unfolding(ber_core::specs::Window::ended))]
fn nothing(place: Place, bytes: &[u8]) -> Next
    ensures { Comes result ended place bytes.now }
{
    if place.at >= place.end {
        return Next::Leaves;
    }
    match place.cursor(bytes).tag() {
        Err(ReadFault::More) => Next::Waits,
        _ => Next::Unsure,
    }
}

#[tactic(auto, unfolding(crate::specs::Inside::empty))]
fn empty(place: Place, bytes: &[u8]) -> Next
    ensures { Comes result empty place bytes.now }
{
    if place.at >= place.end {
        Next::Leaves
    } else {
        Next::Unsure
    }
}

/// The message.
fn start(place: Place, bytes: &[u8]) -> Next
    ensures { Comes result (start_of Part.Request) place bytes.now }
{
    match place.cursor(bytes).open_as(0x30) {
        Ok((inner, _)) => {
            let inner = Place::of(Part::Request, inner);
            Next::Goes(inner)
        }
        Err(ReadFault::More) => Next::Waits,
        Err(_) => Next::Unsure,
    }
}

fn look_for(form: Form, place: Place, bytes: &[u8]) -> Next
    ensures { Comes result (by_form form place.part) place bytes.now }
{
    match form {
        Form::Start => start(place, bytes),
        Form::One(tag, content, next) => one(place, bytes, tag, content, next),
        Form::Many(tag, content) => many(place, bytes, tag, content),
        Form::Optional(tag, content, found, missing) => {
            optional(place, bytes, tag, content, found, missing)
        }
        Form::OneOf(choice, next) => one_of(place, bytes, choice, next),
        Form::ManyOf(choice) => many_of_choice(place, bytes, choice),
        Form::Some(next) => some(place, bytes, next),
        Form::Skipped => skipped(place, bytes),
        Form::Nothing => nothing(place, bytes),
        Form::Empty => empty(place, bytes),
    }
}

/// What comes of looking at the first element of the place. In constant time.
pub(crate) fn look(place: Place, bytes: &[u8]) -> Next
    ensures { Comes result (inside place.part) place bytes.now }
{
    look_for(place.part.form(), place, bytes)
}
