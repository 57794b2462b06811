// What may come next in a query: the grammar as a push parser.
ghost use Rattle.std.specs.Prelude.{◌≡◌, ◌+◌, ◌^◌, ◌<◌, ◌↔◌, IsTrue};
ghost use Rattle.query_grammar.specs.Expecting as expecting;

use crate::syntax::Role;
use crate::terminal::Terminal;

/// What may come next in a query.
#[derive(Clone, Copy, Debug, PartialEq, Eq)]
pub enum Expect {
    /// PREFIX or SELECT.
    Prologue,
    /// The prefix of a declaration.
    DeclaredPrefix,
    /// The IRI of a declaration.
    Namespace,
    /// After SELECT: DISTINCT or the columns.
    Projection,
    /// After DISTINCT: the columns.
    Columns,
    /// After a column: another, or the WHERE clause.
    MoreColumns,
    /// After `*`: the WHERE clause.
    WhereOrGroup,
    /// After WHERE or OPTIONAL: `{`.
    Group,
    /// After `{`, or after a `.`: a subject, an element, or `}`.
    Block,
    /// After the `}` of an element: a `.`, a subject, an element, or `}`.
    AfterElement,
    /// After a string that is a subject: a tag, `^^`, or a verb.
    AfterSubjectString,
    /// After `^^`: the datatype of a subject.
    SubjectDatatype,
    /// After a subject: a verb.
    Verb,
    /// After a verb or a `,`: an object.
    Object,
    /// After a string that is an object: a tag, `^^`, or what may follow any object.
    AfterObjectString,
    /// After `^^`: the datatype of an object.
    ObjectDatatype,
    /// After an object: `,`, `;`, `.`, an element, or `}`.
    AfterObject,
    /// After a `;`: a verb, or what may follow any object, but `,`.
    AfterSemicolon,
    /// After the last `}`: nothing.
    End,
}

/// Where a query stands after some of its tokens.
#[derive(Clone, Copy, Debug, PartialEq, Eq)]
pub struct State {
    /// What may come next.
    pub expect: Expect,
    /// How many groups are open.
    pub groups: usize,
}

/// A token that is read: where the query stands after it, and what the token is for.
#[derive(Clone, Copy, Debug, PartialEq, Eq)]
pub struct Step {
    /// Where the query stands after the token.
    pub state: State,
    /// What the token is for.
    pub role: Role,
}

impl State {
    /// Where a query stands before its first token.
    pub fn start() -> State
        ensures { result ≡ expecting.start }
    {
        State {
            expect: Expect::Prologue,
            groups: 0,
        }
    }

    /// Whether the tokens are a query: nothing more is expected.
    pub fn is_end(&self) -> bool
        ensures { IsTrue result ↔ (self.now.expect ≡ Expect.End) }
    {
        matches!(self.expect, Expect::End)
    }
}

// A token that is read in this role.
fn read(role: Role, expect: Expect, groups: usize) -> Option<Step>
    ensures { result ≡ expecting.reads role expect groups }
{
    Some(Step {
        state: State { expect, groups },
        role,
    })
}

// `prologue ::= ('PREFIX' prefix IRI)*`, and SELECT after it
fn prologue(groups: usize, terminal: Terminal) -> Option<Step>
    ensures { result ≡ expecting.prologue_step groups terminal }
{
    match terminal {
        Terminal::PrefixWord => read(Role::Keyword, Expect::DeclaredPrefix, groups),
        Terminal::SelectWord => read(Role::Keyword, Expect::Projection, groups),
        _ => None,
    }
}

fn declared_prefix(groups: usize, terminal: Terminal) -> Option<Step>
    ensures { result ≡ expecting.declared_prefix_step groups terminal }
{
    match terminal {
        Terminal::Prefix => read(Role::Declared, Expect::Namespace, groups),
        _ => None,
    }
}

fn namespace(groups: usize, terminal: Terminal) -> Option<Step>
    ensures { result ≡ expecting.namespace_step groups terminal }
{
    match terminal {
        Terminal::Iri => read(Role::Namespace, Expect::Prologue, groups),
        _ => None,
    }
}

// `variable+ | '*'`
fn columns(groups: usize, terminal: Terminal) -> Option<Step>
    ensures { result ≡ expecting.columns_step groups terminal }
{
    match terminal {
        Terminal::Variable => read(Role::Column, Expect::MoreColumns, groups),
        Terminal::Star => read(Role::AllColumns, Expect::WhereOrGroup, groups),
        _ => None,
    }
}

// `'DISTINCT'? (variable+ | '*')`
fn projection(groups: usize, terminal: Terminal) -> Option<Step>
    ensures { result ≡ expecting.projection_step groups terminal }
{
    match terminal {
        Terminal::DistinctWord => read(Role::Distinct, Expect::Columns, groups),
        _ => columns(groups, terminal),
    }
}

// The `{` of a group.
fn group(groups: usize, terminal: Terminal) -> Option<Step>
    requires { groups + 1 < 2 ^ 64 }
    ensures { result ≡ expecting.group_step groups terminal }
{
    match terminal {
        Terminal::Open => read(Role::Open, Expect::Block, groups + 1),
        _ => None,
    }
}

// `'WHERE'? group`
fn where_or_group(groups: usize, terminal: Terminal) -> Option<Step>
    requires { groups + 1 < 2 ^ 64 }
    ensures { result ≡ expecting.where_step groups terminal }
{
    match terminal {
        Terminal::WhereWord => read(Role::Keyword, Expect::Group, groups),
        _ => group(groups, terminal),
    }
}

// `variable* 'WHERE'? group`
fn more_columns(groups: usize, terminal: Terminal) -> Option<Step>
    requires { groups + 1 < 2 ^ 64 }
    ensures { result ≡ expecting.more_columns_step groups terminal }
{
    match terminal {
        Terminal::Variable => read(Role::Column, Expect::MoreColumns, groups),
        _ => where_or_group(groups, terminal),
    }
}

// After a `}`, before which so many groups are open.
fn behind_close(groups: usize) -> State
    ensures { result ≡ expecting.closed groups }
{
    if groups < 2 {
        State {
            expect: Expect::End,
            groups: 0,
        }
    } else {
        State {
            expect: Expect::AfterElement,
            groups: groups - 1,
        }
    }
}

// `element ::= 'OPTIONAL' group | group`, or the end of the group
fn element(groups: usize, terminal: Terminal) -> Option<Step>
    requires { groups + 1 < 2 ^ 64 }
    ensures { result ≡ expecting.element_step groups terminal }
{
    match terminal {
        Terminal::OptionalWord => read(Role::Optional, Expect::Group, groups),
        Terminal::Open => read(Role::Open, Expect::Block, groups + 1),
        Terminal::Close => Some(Step {
            state: behind_close(groups),
            role: Role::Close,
        }),
        _ => None,
    }
}

// `block? (element '.'? block?)*`, where a block begins with a subject
fn block(groups: usize, terminal: Terminal) -> Option<Step>
    requires { groups + 1 < 2 ^ 64 }
    ensures { result ≡ expecting.block_step groups terminal }
{
    match terminal {
        Terminal::Variable
        | Terminal::Iri
        | Terminal::Prefixed
        | Terminal::Prefix
        | Terminal::Number
        | Terminal::Boolean => read(Role::Subject, Expect::Verb, groups),
        Terminal::Quoted => read(Role::Subject, Expect::AfterSubjectString, groups),
        _ => element(groups, terminal),
    }
}

// `'.'? block? (element '.'? block?)*`
fn after_element(groups: usize, terminal: Terminal) -> Option<Step>
    requires { groups + 1 < 2 ^ 64 }
    ensures { result ≡ expecting.after_element_step groups terminal }
{
    match terminal {
        Terminal::Stop => read(Role::Keyword, Expect::Block, groups),
        _ => block(groups, terminal),
    }
}

// `verb ::= variable | iri | 'a'`
fn verb(groups: usize, terminal: Terminal) -> Option<Step>
    ensures { result ≡ expecting.verb_step groups terminal }
{
    match terminal {
        Terminal::Variable | Terminal::Iri | Terminal::Prefixed | Terminal::Prefix | Terminal::A =>
            read(Role::Verb, Expect::Object, groups),
        _ => None,
    }
}

// `node ::= variable | iri | literal`, as an object
fn object(groups: usize, terminal: Terminal) -> Option<Step>
    ensures { result ≡ expecting.object_step groups terminal }
{
    match terminal {
        Terminal::Variable
        | Terminal::Iri
        | Terminal::Prefixed
        | Terminal::Prefix
        | Terminal::Number
        | Terminal::Boolean => read(Role::Object, Expect::AfterObject, groups),
        Terminal::Quoted => read(Role::Object, Expect::AfterObjectString, groups),
        _ => None,
    }
}

// The iri of a datatype, and what is expected after it.
fn datatype(after: Expect, groups: usize, terminal: Terminal) -> Option<Step>
    ensures { result ≡ expecting.datatype_step after groups terminal }
{
    match terminal {
        Terminal::Iri | Terminal::Prefixed | Terminal::Prefix => {
            read(Role::Datatype, after, groups)
        }
        _ => None,
    }
}

// `(tag | '^^' iri)?` after a string that is a subject
fn after_subject_string(groups: usize, terminal: Terminal) -> Option<Step>
    ensures { result ≡ expecting.after_subject_string_step groups terminal }
{
    match terminal {
        Terminal::Tag => read(Role::Tag, Expect::Verb, groups),
        Terminal::Carets => read(Role::Keyword, Expect::SubjectDatatype, groups),
        _ => verb(groups, terminal),
    }
}

// `(';' (verb objects)?)*`, and `('.' block?)?` after it
fn after_objects(groups: usize, terminal: Terminal) -> Option<Step>
    requires { groups + 1 < 2 ^ 64 }
    ensures { result ≡ expecting.after_objects_step groups terminal }
{
    match terminal {
        Terminal::Semicolon => read(Role::Keyword, Expect::AfterSemicolon, groups),
        Terminal::Stop => read(Role::Keyword, Expect::Block, groups),
        _ => element(groups, terminal),
    }
}

// `(',' node)*`
fn after_object(groups: usize, terminal: Terminal) -> Option<Step>
    requires { groups + 1 < 2 ^ 64 }
    ensures { result ≡ expecting.after_object_step groups terminal }
{
    match terminal {
        Terminal::Comma => read(Role::Keyword, Expect::Object, groups),
        _ => after_objects(groups, terminal),
    }
}

// `(tag | '^^' iri)?` after a string that is an object
fn after_object_string(groups: usize, terminal: Terminal) -> Option<Step>
    requires { groups + 1 < 2 ^ 64 }
    ensures { result ≡ expecting.after_object_string_step groups terminal }
{
    match terminal {
        Terminal::Tag => read(Role::Tag, Expect::AfterObject, groups),
        Terminal::Carets => read(Role::Keyword, Expect::ObjectDatatype, groups),
        _ => after_object(groups, terminal),
    }
}

// `(verb objects)?` after a `;`
fn after_semicolon(groups: usize, terminal: Terminal) -> Option<Step>
    requires { groups + 1 < 2 ^ 64 }
    ensures { result ≡ expecting.after_semicolon_step groups terminal }
{
    match terminal {
        Terminal::Variable | Terminal::Iri | Terminal::Prefixed | Terminal::Prefix | Terminal::A =>
            verb(groups, terminal),
        _ => after_objects(groups, terminal),
    }
}

/// What a token of this terminal symbol is for where the query stands so, and where it stands after
/// the token; `None` where no query of the grammar goes on with such a token. The count of open groups
/// has room for one more: a caller that bounds how deep groups may stand keeps it far below.
#[tactic(auto, unfolding(crate::specs::Expecting::next_step))]
pub fn next(state: State, terminal: Terminal) -> Option<Step>
    requires { state.groups + 1 < 2 ^ 64 }
    ensures { result ≡ expecting.next_step state terminal }
{
    let groups = state.groups;
    match state.expect {
        Expect::Prologue => prologue(groups, terminal),
        Expect::DeclaredPrefix => declared_prefix(groups, terminal),
        Expect::Namespace => namespace(groups, terminal),
        Expect::Projection => projection(groups, terminal),
        Expect::Columns => columns(groups, terminal),
        Expect::MoreColumns => more_columns(groups, terminal),
        Expect::WhereOrGroup => where_or_group(groups, terminal),
        Expect::Group => group(groups, terminal),
        Expect::Block => block(groups, terminal),
        Expect::AfterElement => after_element(groups, terminal),
        Expect::AfterSubjectString => after_subject_string(groups, terminal),
        Expect::SubjectDatatype => datatype(Expect::Verb, groups, terminal),
        Expect::Verb => verb(groups, terminal),
        Expect::Object => object(groups, terminal),
        Expect::AfterObjectString => after_object_string(groups, terminal),
        Expect::ObjectDatatype => datatype(Expect::AfterObject, groups, terminal),
        Expect::AfterObject => after_object(groups, terminal),
        Expect::AfterSemicolon => after_semicolon(groups, terminal),
        Expect::End => None,
    }
}
