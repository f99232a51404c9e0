// The two things that stand in a block as a mark of one byte.
ghost use Rattle.std.specs.Prelude.{◌≡◌};
ghost use Rattle.model.specs.Walk.{kind_number};
ghost use Rattle.model.specs.FormulaBytes.{mark as group_mark};
ghost use Rattle.model.specs.Marks.{kind_of, group_of, IsKind, IsGroup};

// A byte that is the mark of nothing that it was read for.
#[derive(Clone, Copy, PartialEq, Eq, Debug)]
pub struct UnknownMark;

// What a line claims of its case, or a visit finds of one.
#[derive(Clone, Copy, PartialEq, Eq, Debug)]
pub enum Kind {
    // No start state is in it.
    Empty,
    // Every state in it carries the plan to the goal.
    Carries,
}

// Its byte in a line.
impl From<Kind> for u8 {
    ghost from_gives = { λ kind mark. mark ≡ kind_number (kind_of kind) };

    #[inline(always)]
    fn from(kind: Kind) -> u8 {
        match kind {
            Kind::Empty => 0,
            Kind::Carries => 1,
        }
    }
}

// The kind with this byte.
impl TryFrom<u8> for Kind {
    type Error = UnknownMark;

    ghost try_from_gives = { IsKind };

    #[inline(always)]
    fn try_from(mark: u8) -> Result<Kind, UnknownMark> {
        match mark {
            0 => Ok(Kind::Empty),
            1 => Ok(Kind::Carries),
            _ => Err(UnknownMark),
        }
    }
}

// The groups of formulas.
#[derive(Clone, Copy, PartialEq, Eq, Debug)]
pub enum Group {
    All,
    Any,
}

// The byte that begins it.
impl From<Group> for u8 {
    ghost from_gives = { λ group mark. mark ≡ group_mark (group_of group) };

    #[inline(always)]
    fn from(group: Group) -> u8 {
        match group {
            Group::All => 0x80,
            Group::Any => 0x81,
        }
    }
}

// The group that this byte begins.
impl TryFrom<u8> for Group {
    type Error = UnknownMark;

    ghost try_from_gives = { IsGroup };

    #[inline(always)]
    fn try_from(mark: u8) -> Result<Group, UnknownMark> {
        match mark {
            0x80 => Ok(Group::All),
            0x81 => Ok(Group::Any),
            _ => Err(UnknownMark),
        }
    }
}
