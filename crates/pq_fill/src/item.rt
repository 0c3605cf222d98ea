//! The statements of the generated script, before they are text.
ghost use Rattle.std.specs.Prelude.{◌≡◌};
ghost use Rattle.pq_fill.specs.Script.{script_definition, item_kind};

/// A statement that defines a table or the query.
#[derive(Clone, Copy, PartialEq, Eq)]
pub enum Definition {
    Users,
    Subs,
    Thoughts,
    Home,
}

/// A statement of the script. Users are numbered from 0.
#[derive(Clone, Copy, PartialEq, Eq)]
pub enum Item {
    Definition(Definition),
    /// A user is inserted.
    User(u32),
    /// A subscription of a user to another is inserted.
    Sub {
        owner: u32,
        target: u32,
        approved: bool,
    },
    /// A thought of a user at a time is inserted.
    Thought {
        owner: u32,
        time: u32,
    },
    /// The home page of a user is run.
    Run(u32),
}

/// What a statement of the script is counted as, where it is accepted.
#[derive(Clone, Copy, PartialEq, Eq)]
pub enum Kind {
    /// A CREATE TABLE or the PREPARE: not counted.
    Definition,
    /// An INSERT of a user.
    User,
    /// An INSERT of a subscription.
    Sub,
    /// An INSERT of a thought.
    Thought,
    /// A RUN of the home page.
    Run,
}

impl Definition {
    /// The statement's text.
    pub fn text(self) -> &'static str
        ensures { result.now ≡ script_definition self }
    {
        match self {
            Definition::Users => {
                "CREATE TABLE users (name TEXT(16), city TEXT(16), PRIMARY KEY (name));"
            }
            Definition::Subs => {
                "CREATE TABLE subs (owner TEXT(16), target TEXT(16), approved BOOL, PRIMARY KEY (owner, target), CARDINALITY LIMIT 100 (owner), FOREIGN KEY (owner) REFERENCES users, FOREIGN KEY (target) REFERENCES users);"
            }
            Definition::Thoughts => {
                "CREATE TABLE thoughts (owner TEXT(16), ts INT, body TEXT(140), PRIMARY KEY (owner, ts), FOREIGN KEY (owner) REFERENCES users);"
            }
            Definition::Home => {
                "PREPARE home AS SELECT t.owner, t.ts, t.body FROM subs s, thoughts t WHERE s.owner = [1: uname] AND s.approved = true AND t.owner = s.target ORDER BY t.ts DESC LIMIT 10;"
            }
        }
    }
}

impl Item {
    /// What the statement is counted as.
    pub fn kind(self) -> Kind
        ensures { result ≡ item_kind self }
    {
        match self {
            Item::Definition(_) => Kind::Definition,
            Item::User(_) => Kind::User,
            Item::Sub { .. } => Kind::Sub,
            Item::Thought { .. } => Kind::Thought,
            Item::Run(_) => Kind::Run,
        }
    }
}
