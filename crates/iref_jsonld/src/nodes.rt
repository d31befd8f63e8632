//! The nodes of a document, with the IRIs of what they have.
use crate::context::{Context, is_keyword};
use anyhow::{Result, ensure};
use iref::iri::IriBuf;
use serde_json::{Map, Value};

// Prints what the text is, the text, and its IRI.
fn print_iri<R: Print>(rt: &R, what: &str, text: &str, iri: Option<&IriBuf>) -> Result<()> {
    match iri {
        Some(iri) => println!(rt; "{what}\t{text:?}\t{iri}")?,
        None => println!(rt; "{what}\t{text:?}\tnone")?,
    }
    Ok(())
}

// Prints the types, one or an array of them.
fn print_types<R: Print>(rt: &R, context: &Context, value: &Value) -> Result<()> {
    if let Some(text) = value.as_str() {
        print_type(rt, context, text)?;
    }
    if let Some(items) = value.as_array() {
        for item in items {
            if let Some(text) = item.as_str() {
                print_type(rt, context, text)?;
            }
        }
    }
    Ok(())
}

fn print_type<R: Print>(rt: &R, context: &Context, text: &str) -> Result<()> {
    if is_keyword(text) {
        return Ok(());
    }
    let iri = context.type_iri(text)?;
    print_iri(rt, "@type", text, iri.as_ref())
}

// Prints what the members of a node have, and adds the values that may hold nodes.
fn print_node<'a, R: Print>(
    rt: &R,
    context: &Context,
    members: &'a Map<String, Value>,
    inner: &mut Vec<&'a Value>,
) -> Result<()> {
    for (name, value) in members {
        match name.as_str() {
            "@id" => {
                if let Some(text) = value.as_str() {
                    print_iri(rt, "@id", text, context.node_iri(text)?.as_ref())?;
                }
            }
            "@type" => print_types(rt, context, value)?,
            "@graph" | "@included" | "@list" | "@reverse" | "@set" => inner.push(value)?,
            name if is_keyword(name) => {}
            name => {
                let iri = context.property(name)?;
                print_iri(rt, "name", name, iri.as_ref())?;
                if iri.is_some() {
                    inner.push(value)?;
                }
            }
        }
    }
    Ok(())
}

/// Prints a line for each name, type and `@id` of the document's nodes, those of a node before those
/// of the nodes inside it.
pub fn print_all<R: Print + AllocGlobal>(
    rt: &R,
    context: &Context,
    document: &Value,
) -> Result<()> {
    let mut open: Vec<&Value> = Vec::new(rt.alloc());
    open.push(document)?;
    for turn in 0..u64::MAX {
        let Some(value) = open.pop() else {
            break;
        };
        let mut inner = Vec::new(rt.alloc());
        match value {
            Value::Array(items) => inner.extend(items.iter())?,
            Value::Object(members) => {
                let nested = turn > 0 && members.contains_key("@context");
                ensure!(!nested, "a context inside the document is not read");
                print_node(rt, context, members, &mut inner)?;
            }
            _ => {}
        }
        for value in inner.iter().rev() {
            open.push(*value)?;
        }
    }
    Ok(())
}
