//! The grammar as a table: what stands first in each part of a request.

ghost use Rattle.std.specs.Prelude.{◌≡◌};
ghost use Rattle.request_wait.specs.Table.{operation_content, auth_content, filter_content, simple_content};

use ldap_requests::FILTER_DEPTH;

/// What is still to be read inside an element, up to its end (RFC 4511, section 4).
#[derive(Clone, Copy, Debug)]
pub(crate) enum Part {
    /// The message, and no more.
    Start,
    /// All that a message has inside.
    Request,
    /// From the operation on.
    Operation,
    /// What may follow the operation.
    AfterOperation,
    /// Elements that nobody knows.
    Unknown,
    /// Nothing more.
    End,

    Controls,
    Control,
    ControlCritical,
    ControlValue,

    Bind,
    BindName,
    BindAuth,
    Sasl,
    SaslCredentials,

    Unbind,

    Search,
    SearchScope,
    SearchDeref,
    SearchSizeLimit,
    SearchTimeLimit,
    SearchTypesOnly,
    SearchFilter,
    SearchAttributes,
    /// Filters of at most so many levels.
    Filters(u32),
    /// One such filter.
    Not(u32),
    Substrings,
    SubstringsPieces,
    /// At least one piece.
    Pieces,
    InitialPiece,
    MiddlePieces,
    FinalPiece,

    Modify,
    ModifyMods,
    Mods,
    Mod,
    ModAttribute,

    Add,
    AddAttributes,
    Attributes,
    Attribute,
    AttributeValues,
    Texts,

    Rename,
    RenameNewRdn,
    RenameDeleteOld,
    RenameNewSuperior,

    Compare,
    CompareAssertion,
    Assertion,
    AssertionValue,

    Extended,
    ExtendedValue,
}

/// What is inside an element that has no elements inside.
#[derive(Clone, Copy)]
pub(crate) enum Leaf {
    Octets,
    Int,
    Boolean,
    /// A number from 0 to 2147483647.
    Count,
    /// A number from 1 to 2147483647.
    MessageId,
}

/// What is inside an element.
#[derive(Clone, Copy)]
pub(crate) enum Content {
    Leaf(Leaf),
    Inner(Part),
}

/// What an element's tag says of its content.
#[derive(Clone, Copy)]
pub(crate) enum Choice {
    Operation,
    Auth,
    /// A filter of at most so many levels.
    Filter(u32),
}

/// What stands first in a part.
#[derive(Clone, Copy)]
pub(crate) enum Form {
    /// The message.
    Start,
    /// An element with this tag, and then this part.
    One(u8, Content, Part),
    /// As many elements with this tag as there are.
    Many(u8, Content),
    /// An element with this tag and then the first part, or none and then the second.
    Optional(u8, Content, Part, Part),
    /// An element with one of the tags of the choice, and then this part.
    OneOf(Choice, Part),
    /// As many elements with a tag of the choice as there are.
    ManyOf(Choice),
    /// This part, which is not empty.
    Some(Part),
    /// Elements that are skipped.
    Skipped,
    /// Nothing, and no element is awaited.
    Nothing,
    /// Nothing, in an operation that has no content.
    Empty,
}

/// Bytes of any kind.
pub(crate) const TEXT: Content = Content::Leaf(Leaf::Octets);

impl Part {
    ghost use Rattle.request_wait.specs.Table.{form_of};

    /// What stands first in this part (RFC 4511, section 4).
    pub(crate) fn form(self) -> Form
        ensures { result ≡ form_of self }
    {
        match self {
            Part::Start => Form::Start,
            Part::Request => Form::One(0x02, Content::Leaf(Leaf::MessageId), Part::Operation),
            Part::Operation => Form::OneOf(Choice::Operation, Part::AfterOperation),
            Part::AfterOperation => Form::Optional(
                0xa0,
                Content::Inner(Part::Controls),
                Part::Unknown,
                Part::Unknown,
            ),
            Part::Unknown => Form::Skipped,
            Part::End => Form::Nothing,
            Part::Controls => Form::Many(0x30, Content::Inner(Part::Control)),
            Part::Control => Form::One(0x04, TEXT, Part::ControlCritical),
            Part::ControlCritical => Form::Optional(
                0x01,
                Content::Leaf(Leaf::Boolean),
                Part::ControlValue,
                Part::ControlValue,
            ),
            Part::ControlValue => Form::Optional(0x04, TEXT, Part::Unknown, Part::Unknown),
            Part::Bind => Form::One(0x02, Content::Leaf(Leaf::Int), Part::BindName),
            Part::BindName => Form::One(0x04, TEXT, Part::BindAuth),
            Part::BindAuth => Form::OneOf(Choice::Auth, Part::Unknown),
            Part::Sasl => Form::One(0x04, TEXT, Part::SaslCredentials),
            Part::SaslCredentials => Form::Optional(0x04, TEXT, Part::End, Part::End),
            Part::Unbind => Form::Empty,
            Part::Search => Form::One(0x04, TEXT, Part::SearchScope),
            Part::SearchScope => Form::One(0x0a, Content::Leaf(Leaf::Int), Part::SearchDeref),
            Part::SearchDeref => Form::One(0x0a, Content::Leaf(Leaf::Int), Part::SearchSizeLimit),
            Part::SearchSizeLimit => {
                Form::One(0x02, Content::Leaf(Leaf::Count), Part::SearchTimeLimit)
            }
            Part::SearchTimeLimit => {
                Form::One(0x02, Content::Leaf(Leaf::Count), Part::SearchTypesOnly)
            }
            Part::SearchTypesOnly => {
                Form::One(0x01, Content::Leaf(Leaf::Boolean), Part::SearchFilter)
            }
            Part::SearchFilter => {
                Form::OneOf(Choice::Filter(FILTER_DEPTH), Part::SearchAttributes)
            }
            Part::SearchAttributes => Form::One(0x30, Content::Inner(Part::Texts), Part::Unknown),
            Part::Filters(levels) => Form::ManyOf(Choice::Filter(levels)),
            Part::Not(levels) => Form::OneOf(Choice::Filter(levels), Part::End),
            Part::Substrings => Form::One(0x04, TEXT, Part::SubstringsPieces),
            Part::SubstringsPieces => Form::One(0x30, Content::Inner(Part::Pieces), Part::End),
            Part::Pieces => Form::Some(Part::InitialPiece),
            Part::InitialPiece => {
                Form::Optional(0x80, TEXT, Part::MiddlePieces, Part::MiddlePieces)
            }
            Part::MiddlePieces => Form::Optional(0x81, TEXT, Part::MiddlePieces, Part::FinalPiece),
            Part::FinalPiece => Form::Optional(0x82, TEXT, Part::End, Part::End),
            Part::Modify => Form::One(0x04, TEXT, Part::ModifyMods),
            Part::ModifyMods => Form::One(0x30, Content::Inner(Part::Mods), Part::Unknown),
            Part::Mods => Form::Many(0x30, Content::Inner(Part::Mod)),
            Part::Mod => Form::One(0x0a, Content::Leaf(Leaf::Int), Part::ModAttribute),
            Part::ModAttribute => Form::One(0x30, Content::Inner(Part::Attribute), Part::End),
            Part::Add => Form::One(0x04, TEXT, Part::AddAttributes),
            Part::AddAttributes => Form::One(0x30, Content::Inner(Part::Attributes), Part::Unknown),
            Part::Attributes => Form::Many(0x30, Content::Inner(Part::Attribute)),
            Part::Attribute => Form::One(0x04, TEXT, Part::AttributeValues),
            Part::AttributeValues => Form::One(0x31, Content::Inner(Part::Texts), Part::End),
            Part::Texts => Form::Many(0x04, TEXT),
            Part::Rename => Form::One(0x04, TEXT, Part::RenameNewRdn),
            Part::RenameNewRdn => Form::One(0x04, TEXT, Part::RenameDeleteOld),
            Part::RenameDeleteOld => {
                Form::One(0x01, Content::Leaf(Leaf::Boolean), Part::RenameNewSuperior)
            }
            Part::RenameNewSuperior => Form::Optional(0x80, TEXT, Part::Unknown, Part::Unknown),
            Part::Compare => Form::One(0x04, TEXT, Part::CompareAssertion),
            Part::CompareAssertion => {
                Form::One(0x30, Content::Inner(Part::Assertion), Part::Unknown)
            }
            Part::Assertion => Form::One(0x04, TEXT, Part::AssertionValue),
            Part::AssertionValue => Form::One(0x04, TEXT, Part::End),
            Part::Extended => Form::One(0x80, TEXT, Part::ExtendedValue),
            Part::ExtendedValue => Form::Optional(0x81, TEXT, Part::Unknown, Part::Unknown),
        }
    }
}

impl Choice {
    ghost use Rattle.request_wait.specs.Table.{content_by};

    /// What an element with this tag has inside, if the choice has the tag.
    pub(crate) fn content(self, tag: u8) -> Option<Content>
        ensures { result ≡ content_by self tag }
    {
        match self {
            Choice::Operation => operation_content(tag),
            Choice::Auth => auth_content(tag),
            Choice::Filter(levels) => filter_content(levels, tag),
        }
    }
}

#[tactic(auto, unfolding(crate::specs::Table::operation_content))]
fn operation_content(tag: u8) -> Option<Content>
    ensures { result ≡ operation_content tag }
{
    if tag == 0x60 {
        Some(Content::Inner(Part::Bind))
    } else if tag == 0x42 {
        Some(Content::Inner(Part::Unbind))
    } else if tag == 0x63 {
        Some(Content::Inner(Part::Search))
    } else if tag == 0x66 {
        Some(Content::Inner(Part::Modify))
    } else if tag == 0x68 {
        Some(Content::Inner(Part::Add))
    } else if tag == 0x4a {
        Some(TEXT)
    } else if tag == 0x6c {
        Some(Content::Inner(Part::Rename))
    } else if tag == 0x6e {
        Some(Content::Inner(Part::Compare))
    } else if tag == 0x50 {
        Some(Content::Leaf(Leaf::Count))
    } else if tag == 0x77 {
        Some(Content::Inner(Part::Extended))
    } else {
        None
    }
}

#[tactic(auto, unfolding(crate::specs::Table::auth_content))]
fn auth_content(tag: u8) -> Option<Content>
    ensures { result ≡ auth_content tag }
{
    if tag == 0x80 {
        Some(TEXT)
    } else if tag == 0xa3 {
        Some(Content::Inner(Part::Sasl))
    } else {
        None
    }
}

/// A filter has at most so many levels; one that is deeper has no content here.
#[tactic(auto, unfolding(crate::specs::Table::filter_content))]
fn filter_content(levels: u32, tag: u8) -> Option<Content>
    ensures { result ≡ filter_content levels tag }
{
    if levels == 0 {
        return None;
    }
    if tag == 0xa0 {
        Some(Content::Inner(Part::Filters(levels - 1)))
    } else if tag == 0xa1 {
        Some(Content::Inner(Part::Filters(levels - 1)))
    } else if tag == 0xa2 {
        Some(Content::Inner(Part::Not(levels - 1)))
    } else {
        simple_content(tag)
    }
}

#[tactic(auto, unfolding(crate::specs::Table::simple_content))]
fn simple_content(tag: u8) -> Option<Content>
    ensures { result ≡ simple_content tag }
{
    if tag == 0xa3 {
        Some(Content::Inner(Part::Assertion))
    } else if tag == 0xa4 {
        Some(Content::Inner(Part::Substrings))
    } else if tag == 0xa5 {
        Some(Content::Inner(Part::Assertion))
    } else if tag == 0xa6 {
        Some(Content::Inner(Part::Assertion))
    } else if tag == 0x87 {
        Some(TEXT)
    } else if tag == 0xa8 {
        Some(Content::Inner(Part::Assertion))
    } else if tag == 0xa9 {
        Some(TEXT)
    } else {
        None
    }
}
