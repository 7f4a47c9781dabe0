//! A record that is lent, with its bytes and masks where they stand: in the bytes of a trace or in a `Record`.
//!
//! A contract sees a `RecordView` as the `Record` that it shows. `RecordView::of` lends a record, and `to_record`
//! copies it.
#![tactic(auto)]

mod event_view;
mod masks_view;
mod record_view;

pub use event_view::EventView;
pub use masks_view::MasksView;
pub use record_view::RecordView;
