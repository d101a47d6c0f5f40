//! Reports and numeric tables of xBRL-JSON 1.0, read from their texts, and facts and reports written.
//!
//! - `values`: a JSON value, read from bytes.
//! - `borrowed`: a JSON value whose texts are those of the bytes.
//! - `reading`: a report, read from a JSON value.
//! - `info`: what `documentInfo` declares.
//! - `facts`: all facts of a report, read.
//! - `table`: numeric tables, read.
//! - `fault`: why a text is no report.
//! - `report`: the report that was read.
//! - `entries`: the facts of a report, one by one.
//! - `report_text`: a report, written.
//! - `fact_text`: a fact, written.
//! - `pieces`: the pieces of which written texts are made.
//! - `plain_text`: whether a text needs no escape.
//! - `read_back`: the laws that what is written is read back.
//! - `info_laws`: the laws of an info in which a value was set.
//!
//! It knows nothing of versions, of sessions or of devices.
#![tactic(auto)]

mod borrowed;
mod entries;
mod fact_text;
mod facts;
mod fault;
mod info;
mod info_laws;
mod pieces;
mod plain_text;
mod read_back;
mod reading;
mod report;
mod report_text;
mod table;
mod values;

pub use borrowed::{copy_of, number, owned_at, text_value};
pub use entries::Entries;
pub use fact_text::{push_dims, push_fact, push_raw, write_fact, write_raw};
pub use facts::{dimensions, dimensions_from, raw_fact, raw_fact_from};
pub use fault::ReportFault;
pub use filing_model::{TableFault, Trouble};
pub use info::{
    allowed_of_info, allowed_of_word, allowed_word, has_document_type, names_of_info, with_allowed,
};
pub use info_laws::{
    each_set_info_is_an_info, each_set_report_is_read_back, each_set_value_is_declared,
};
pub use pieces::{push_comma, push_nullable, push_quoted};
pub use read_back::{
    facts_are_read_back, raw_facts_are_read_back, raw_facts_are_readable, reports_are_read_back,
    values_are_read_back,
};
pub use reading::{read_report, report_from, report_in_text, report_of};
pub use report::{Report, ReportParts};
pub use report_text::{push_report, push_report_of, write_report};
pub use table::read_table;
pub use values::{json_value, whole_text};
