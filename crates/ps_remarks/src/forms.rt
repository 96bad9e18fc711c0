//! The words of the command line, mode by mode.

/// What an option's value is.
#[derive(Clone, Copy)]
pub enum Value {
    /// It has none.
    Nothing,
    /// A file.
    File,
    /// A number from one to another.
    Number(u32, u32),
}

/// An option of a mode.
#[derive(Clone, Copy)]
pub struct Choice {
    pub name: &'static str,
    pub value: Value,
    /// Whether it has to be there.
    pub is_due: bool,
}

/// How a mode is asked for.
#[derive(Clone, Copy)]
pub struct Form {
    pub mode: &'static str,
    pub choices: &'static [Choice],
    /// Whether files of members may follow.
    pub has_members: bool,
    /// The whole form.
    pub text: &'static str,
}

const DOMAIN: Choice = Choice {
    name: "--domain",
    value: Value::File,
    is_due: true,
};

const SCRIPT: Choice = Choice {
    name: "--script",
    value: Value::File,
    is_due: true,
};

const PLAN_FILE: Choice = Choice {
    name: "--plan",
    value: Value::File,
    is_due: true,
};

const JOURNAL: Choice = Choice {
    name: "--journal",
    value: Value::File,
    is_due: true,
};

const WORKERS: Choice = Choice {
    name: "--workers",
    value: Value::Number(1, 16),
    is_due: false,
};

const BUDGET: Choice = Choice {
    name: "--budget",
    value: Value::Number(1, 200_000),
    is_due: false,
};

const REPLANS: Choice = Choice {
    name: "--replans",
    value: Value::Number(0, 8),
    is_due: false,
};

const ORDERED: Choice = Choice {
    name: "--ordered",
    value: Value::Nothing,
    is_due: false,
};

const REPORTS: Choice = Choice {
    name: "--reports",
    value: Value::Nothing,
    is_due: false,
};

const SESSION: Form = Form {
    mode: "session",
    choices: &[DOMAIN, SCRIPT, WORKERS, BUDGET, REPLANS, ORDERED, REPORTS],
    has_members: true,
    text: "session --domain FILE --script FILE [--workers 1..16] [--budget 1..200000] [--replans 0..8] [--ordered] [--reports] MEMBER..",
};

const CHECK: Form = Form {
    mode: "check",
    choices: &[DOMAIN],
    has_members: false,
    text: "check --domain FILE",
};

const VALIDATE: Form = Form {
    mode: "validate",
    choices: &[DOMAIN, SCRIPT, PLAN_FILE],
    has_members: false,
    text: "validate --domain FILE --script FILE --plan FILE",
};

const REPLAY: Form = Form {
    mode: "replay",
    choices: &[DOMAIN, SCRIPT, JOURNAL, BUDGET, REPLANS],
    has_members: true,
    text: "replay --domain FILE --script FILE --journal FILE [--budget 1..200000] [--replans 0..8] MEMBER..",
};

const PLAN: Form = Form {
    mode: "plan",
    choices: &[DOMAIN, SCRIPT, BUDGET],
    has_members: false,
    text: "plan --domain FILE --script FILE [--budget 1..200000]",
};

/// The forms of the modes that are explained.
pub const FORMS: [Form; 5] = [SESSION, CHECK, VALIDATE, REPLAY, PLAN];

/// The form of the mode of this name.
pub fn form_of(mode: &str) -> Option<Form> {
    FORMS.iter().find(|form| form.mode == mode).copied()
}

/// The option of this name.
pub fn choice_of(form: &Form, name: &str) -> Option<Choice> {
    form.choices
        .iter()
        .find(|choice| choice.name == name)
        .copied()
}
