// The plain data that every layer of the channel speaks in.
#![tactic(auto)]

mod address;
mod code;
pub mod error_code;
mod event;
mod fields;
mod host;
mod items;
mod kind;
pub mod limits;
mod memory;
mod meta_rule;
mod moment;
mod number;
mod octets;
mod plan;
mod post;
mod request;
mod script;
mod split;
mod tender;
mod text;

pub use address::{Address, AddressList, BoxedAddresses, ListFull};
pub use code::{Code, CodeSet};
pub use event::{ConfigFault, Conn, EndCause, Entry, Event, JsonFault, Refusal, Reply, Stamped};
pub use fields::{Field, Fields, Metadata};
pub use host::{DnsName, is_authority, is_host};
pub use items::Items;
pub use kind::{Kind, KindSet, Pick};
pub use memory::NoMemory;
pub use meta_rule::MetaFault;
pub use moment::{Duration, Moment};
pub use number::{append_decimal, is_number, read_number};
pub use octets::Octets;
pub use plan::{CallPlan, Chosen, HedgePolicy, MessageLimit, Pushback, RetryPolicy, Throttle};
pub use post::{Caller, Glance, Look, Post, PostError, View};
pub use request::{Request, RequestFault, is_path, names_of_path};
pub use script::{AnswerLine, AnswerPart, CallLine, ServerScript, ends_stream};
pub use split::{first_piece, split_at_byte};
pub use tender::{NoTender, Tend, TendTurn, Tender};
pub use text::Text;
