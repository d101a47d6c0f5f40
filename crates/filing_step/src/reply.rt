//! `Reply`: every answer to a step, and its clone.

ghost use Rattle.std.specs.Prelude.{◌≡◌, map, string_bytes, IfOk};

use crate::thing::Thing;
use oim_fact::{Allowed, Class, Fact, FactFault};
use std::alloc::AllocError;
use std::sync::Arc;

/// The reply to a step.
#[derive(Drop)]
pub enum Reply {
    NoReport,
    Absent,
    Found(Arc<Fact>),
    /// The class of a cell, and the identifiers of its facts, in byte order.
    Cell(Class, Vec<String>),
    /// The identifiers of a page, in byte order, and whether its limit cuts more.
    Page(Vec<String>, bool),
    /// A review may not change anything.
    ReadOnly,
    Taken,
    BadFact(FactFault),
    Staged,
    /// The allowed duplicates that a report declares.
    Declared(Allowed),
    /// The number of the version that the load made.
    Loaded(u64),
    NameTaken,
    /// The report, and the class and the identifiers, in byte order, of its least cell that it does not allow.
    Disallowed(String, Class, Vec<String>),
    Opened,
    Closed,
    /// The number of the version that the commit made.
    Committed(u64),
    /// The number of the load or commit that last touched the thing, and the first thing that was read and touched since.
    Conflict(u64, Thing),
}

/// The clones of some texts.
fn clone_texts(texts: &Vec<String>) -> Result<Vec<String>, AllocError>
    ensures { IfOk result (λ v. map string_bytes v.items ≡ map string_bytes texts.now.items) }
{
    let mut copies = Vec::with_capacity(*texts.allocator(), texts.len())?;
    for text in texts {
        copies.push(text.clone()?)?;
    }
    Ok(copies)
}

impl Clone for Reply {
    ghost use Rattle.std.specs.Prelude.{◌≡◌};
    ghost use Rattle.filing_step.specs.Steps.{reply_of};

    ghost is_clone = { λ old new. reply_of new ≡ reply_of old };

    fn clone(&self) -> Result<Reply, AllocError> {
        match self {
            Reply::NoReport => Ok(Reply::NoReport),
            Reply::Absent => Ok(Reply::Absent),
            Reply::Found(fact) => Ok(Reply::Found(fact.clone()?)),
            Reply::Cell(class, ids) => Ok(Reply::Cell(*class, clone_texts(ids)?)),
            Reply::Page(ids, more) => Ok(Reply::Page(clone_texts(ids)?, *more)),
            Reply::ReadOnly => Ok(Reply::ReadOnly),
            Reply::Taken => Ok(Reply::Taken),
            Reply::BadFact(fault) => Ok(Reply::BadFact(*fault)),
            Reply::Staged => Ok(Reply::Staged),
            Reply::Declared(allowed) => Ok(Reply::Declared(*allowed)),
            Reply::Loaded(number) => Ok(Reply::Loaded(*number)),
            Reply::NameTaken => Ok(Reply::NameTaken),
            Reply::Disallowed(report, class, ids) => {
                Ok(Reply::Disallowed(report.clone()?, *class, clone_texts(ids)?))
            }
            Reply::Opened => Ok(Reply::Opened),
            Reply::Closed => Ok(Reply::Closed),
            Reply::Committed(number) => Ok(Reply::Committed(*number)),
            Reply::Conflict(number, thing) => Ok(Reply::Conflict(*number, thing.clone()?)),
        }
    }
}
