// The kinds of events, and their numbers.
ghost use Rattle.events.specs.Definition.Kinds.{Names};

#[derive(Clone, Copy)]
pub enum Kind {
    Reset,
    Open,
    Close,
    Read,
    Write,
    Default,
    Status,
    Link,
    Boundary,
    SetUserBoundary,
    Allocate,
    Free,
    LoadModule,
    Start,
    Store,
    Load,
}

// No kind of event has the number.
#[derive(Clone, Copy)]
pub struct UnknownKind;

impl TryFrom<u16> for Kind {
    type Error = UnknownKind;

    ghost try_from_gives = { Names };

    fn try_from(number: u16) -> Result<Self, UnknownKind> {
        match number {
            0 => Ok(Kind::Reset),
            1 => Ok(Kind::Open),
            3 => Ok(Kind::Close),
            6 => Ok(Kind::Read),
            8 => Ok(Kind::Write),
            19 => Ok(Kind::Default),
            20 => Ok(Kind::Status),
            21 => Ok(Kind::Link),
            22 => Ok(Kind::Boundary),
            23 => Ok(Kind::SetUserBoundary),
            24 => Ok(Kind::Allocate),
            25 => Ok(Kind::Free),
            30 => Ok(Kind::LoadModule),
            256 => Ok(Kind::Start),
            257 => Ok(Kind::Store),
            258 => Ok(Kind::Load),
            _ => Err(UnknownKind),
        }
    }
}
