//! A legal trace that is not complete.

use crate::breach::parts_json;
use crate::object::Object;
use crate::record::{record_at_json, records_json};
use explain_lines::Listing;
use explain_why::NotComplete;
use lf_rules::NoMemory;
use serde_json::Value;
use std::alloc::Global;

/// The first request without a reply, the oldest one, the last records of its bank at its block, and what its bank has
/// at the end.
pub(crate) fn incomplete_json(alloc: Global, why: &NotComplete) -> Result<Value, NoMemory> {
    let listing = Listing {
        records: &why.records,
        marks: &why.marks,
    };
    let mut object = Object::new(alloc);
    object.set("port", Value::from(why.request.port))?;
    object.set("tag", Value::from(why.request.tag))?;
    object.set("record", record_at_json(alloc, &listing, Some(why.place))?)?;
    object.set("oldest", record_at_json(alloc, &listing, Some(why.oldest))?)?;
    object.set("at_block", records_json(alloc, &listing, &why.at_block)?)?;
    object.set("state", parts_json(alloc, &listing, &why.state)?)?;
    Ok(object.done())
}
