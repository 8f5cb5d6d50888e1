// The fields of scripts and reports: numbers, bytes, texts, addresses and metadata, spelled and read.
#![tactic(auto)]

mod fault;
mod read;
mod write;

pub use fault::FieldFault;
pub use read::{
    address_of, addresses_of, afterwards, bytes_of, bytes_or_dash, config_of, message_of, meta_of,
    number_before, number_within, piece_of, timeout_of, wait_of, word_of_hex,
};
pub use write::{
    append_addresses, append_config, append_hex, append_hex_of_word, append_hex_word, append_meta,
    append_number, append_number_or_dash, append_text, append_wait, append_word,
};
