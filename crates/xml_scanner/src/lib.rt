// Where a byte may stand in a markup, and what it does there.
#![tactic(auto)]

pub mod states;

// What stands at a place: a tag, character data, a reference, a comment, a CDATA section, an instruction, the end of the text, or a fault.
#[derive(Clone, Copy)]
pub enum Sort {
    StartTag,
    EmptyTag,
    EndTag,
    Text,
    Reference,
    Comment,
    Data,
    Instruction,
    End,
    Fault,
}

// Behind `<`, `<!`, `<!-`, or so many bytes of `[CDATA[`.
#[derive(Clone, Copy)]
pub enum InOpening {
    Less,
    Bang,
    Dash,
    Bracket(u8),
}

// Inside a comment, behind `-` or behind `--`.
#[derive(Clone, Copy)]
pub enum InComment {
    Inside,
    Dash,
    Dashes,
}

// Inside a CDATA section, behind `]` or behind `]]`.
#[derive(Clone, Copy)]
pub enum InData {
    Inside,
    Bracket,
    Brackets,
}

// Behind `<?`, in the target, behind a `?` that follows it; inside the instruction, behind a `?` there.
#[derive(Clone, Copy)]
pub enum InInstruction {
    Opened,
    Target,
    TargetMark,
    Inside,
    Mark,
}

// In the tag's name, behind a blank, in an attribute's name, behind it, behind `=`; in a value of this quote, in a reference there, behind the value; behind `/`.
#[derive(Clone, Copy)]
pub enum InTag {
    Name,
    Blank,
    Attribute,
    Named,
    Equals,
    Value(u8),
    Reference(u8),
    Behind,
    Slash,
}

// Behind `</`, in the end tag's name, behind it.
#[derive(Clone, Copy)]
pub enum InEnd {
    Opened,
    Name,
    Behind,
}

// Where in a markup the next byte stands.
#[derive(Clone, Copy)]
pub enum State {
    Begin,
    Opening(InOpening),
    Comment(InComment),
    Data(InData),
    Instruction(InInstruction),
    Tag(InTag),
    EndTag(InEnd),
    Reference,
}

// What a byte does: it goes on with its token or begins the next one, ends the markup, or is at fault itself or with the token that it should go on with.
#[derive(Clone, Copy)]
pub enum Move {
    On(State),
    Next(State),
    Close(Sort),
    Here,
    Back,
}
