// The readers: each gives the value whose one spelling a text is.
mod address;
mod addresses;
mod hex_bytes;
mod meta;
mod number;
mod octets;
mod prefix;
mod timeout;
mod wait;

pub use address::address_of;
pub use addresses::addresses_of;
pub use hex_bytes::{bytes_of, bytes_or_dash, word_of_hex};
pub use meta::meta_of;
pub use number::{number_before, number_within};
pub use octets::{config_of, message_of, piece_of};
pub use prefix::afterwards;
pub use timeout::timeout_of;
pub use wait::wait_of;
