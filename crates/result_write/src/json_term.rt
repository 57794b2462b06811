//! The object of a term, as it is sent to the writer of JSON.
ghost use Rattle.std.specs.Prelude.{◌≡◌, [], ◌∷◌, codes, OnOk};
ghost use Rattle.std.specs.Str.{IsUtf8};
ghost use Rattle.serde_json.specs.Events.{SendsValue};
ghost use Rattle.bm_term.specs.TermRef.{text_of};
ghost use Rattle.result_write.specs.held.Written.{SendsString, is_literal, strings_object, kind_data, cell_data};

use bm_term::{TermKind, TermRef, unescape};
use serde::Serializer;
use std::alloc::Global;

/// Sends the object of a term. `Err` only where memory runs out, or where the serializer fails.
pub(crate) fn send_term<S: Serializer>(
    alloc: Global,
    term: TermRef<'_>,
    out: &mut S,
) -> Result<(), S::Error>
    ensures { OnOk result (SendsValue (cell_data (text_of term.entry)) (S.written out.old) (S.written out.new)) }
{
    let parts = term.parts();
    let tail = known_utf8(parts.tail);
    if !is_literal(parts.kind) {
        return send_object(parts.kind, known_utf8(parts.body), tail, out);
    }
    match unescape(alloc, parts.body) {
        Ok(form) => send_object(parts.kind, known_utf8(&form), tail, out),
        Err(_) => Err(out.custom("out of memory")),
    }
}

fn is_literal(kind: TermKind) -> bool
    ensures { result ≡ is_literal kind }
{
    match kind {
        TermKind::Iri | TermKind::Blank => false,
        TermKind::Plain | TermKind::Tagged | TermKind::Typed => true,
    }
}

/// The object of a term of this kind, with its value (the IRI, the label or the lexical form) and its tail
/// (SPARQL 1.1 Query Results JSON Format, section 3.2.2).
fn send_object<S: Serializer>(
    kind: TermKind,
    value: &str,
    tail: &str,
    out: &mut S,
) -> Result<(), S::Error>
    ensures { OnOk result (SendsValue (kind_data kind value.now tail.now) (S.written out.old) (S.written out.new)) }
{
    match kind {
        TermKind::Iri => send_pair("uri", value, out),
        TermKind::Blank => send_pair("bnode", value, out),
        TermKind::Plain => send_pair("literal", value, out),
        TermKind::Tagged => send_tagged(value, tail, out),
        TermKind::Typed => send_typed(value, tail, out),
    }
}

fn send_pair<S: Serializer>(kind: &str, value: &str, out: &mut S) -> Result<(), S::Error>
    ensures { OnOk result (SendsValue (strings_object ((codes "type", kind.now) ∷ (codes "value", value.now) ∷ [])) (S.written out.old) (S.written out.new)) }
{
    out.begin_map(Some(2))?;
    send_string("type", kind, out)?;
    send_string("value", value, out)?;
    out.end_map()
}

fn send_tagged<S: Serializer>(lexical: &str, tag: &str, out: &mut S) -> Result<(), S::Error>
    ensures { OnOk result (SendsValue (kind_data TermKind.Tagged lexical.now tag.now) (S.written out.old) (S.written out.new)) }
{
    out.begin_map(Some(3))?;
    send_string("type", "literal", out)?;
    send_string("value", lexical, out)?;
    send_string("xml:lang", tag, out)?;
    out.end_map()
}

fn send_typed<S: Serializer>(lexical: &str, datatype: &str, out: &mut S) -> Result<(), S::Error>
    ensures { OnOk result (SendsValue (kind_data TermKind.Typed lexical.now datatype.now) (S.written out.old) (S.written out.new)) }
{
    out.begin_map(Some(3))?;
    send_string("datatype", datatype, out)?;
    send_string("type", "literal", out)?;
    send_string("value", lexical, out)?;
    out.end_map()
}

/// A member whose value is a string.
fn send_string<S: Serializer>(name: &str, value: &str, out: &mut S) -> Result<(), S::Error>
    ensures { OnOk result (SendsString name.now value.now (S.written out.old) (S.written out.new)) }
{
    out.key(name)?;
    out.str(value)
}

fn known_utf8(bytes: &[u8]) -> &str
    requires { IsUtf8 bytes.now }
    ensures { result.now ≡ bytes.now }
{
    match str::from_utf8(bytes) {
        Ok(text) => text,
        Err(_) => unreachable!(),
    }
}
