/// The questions that a call may ask, each with its number.
#[derive(Clone, Copy, Debug, PartialEq, Eq)]
pub enum Question {
    /// Is the file within 16,384 bytes?
    FileWithinLimit = 1,
    /// Is the record whole, with a length of at least 2?
    RecordWhole = 2,
    /// Is the kind one of 1 to 9?
    KindKnown = 3,
    /// Has the record exactly the length of its kind and count?
    LengthExact = 4,
    /// Are all fields in range, with at most 64 nodes and 256 arrows so far?
    FieldsInRange = 5,
    /// Is each child below its node, and nobody's child yet?
    ChildrenFree = 6,
    /// Does the arrow name an earlier automaton and two states of it?
    ArrowPlaced = 7,
    /// Is there a node, and is every node but the root a child?
    OneRoot = 8,
    /// Is every binder under at most one other?
    BindersFew = 9,
    /// Is every arrow's variable in scope?
    VariablesInScope = 10,
    /// Has the procedure a node?
    ProcedureDrawn = 11,
    /// Has each named type 1 to 16 values?
    TypesKnown = 12,
    /// Is every width within 48?
    WidthsWithinRow = 13,
    /// Is the ceiling 1 to 128?
    CeilingInRange = 14,
    /// Is the event in form?
    EventInForm = 15,
    /// Is there a successor?
    SuccessorExists = 16,
    /// Are the different successors within the ceiling?
    SuccessorsWithinCeiling = 17,
    /// Has the caller's list a place for each event of the menu?
    MenuWithinList = 18,
    /// Is each field of the setting in range?
    SettingInRange = 19,
}

/// The part of the work in which a question is asked, with its number.
#[derive(Clone, Copy, Debug, PartialEq, Eq)]
pub enum Layer {
    Reading = 1,
    Opening = 2,
    Running = 3,
    Settings = 4,
}

/// The place of a no to question 8 where there is no node at all. A rule of the project makes it a number like any other place, since a report prints it.
pub const NO_NODE: usize = 65_535;

/// A refusal: the question that was answered no, and where.
#[derive(Clone, Copy, Debug, PartialEq, Eq)]
pub struct Fault {
    pub question: Question,
    pub place: usize,
}
