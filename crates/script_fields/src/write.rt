// The writers: each appends a value's one spelling.
mod numbers;
mod texts;

pub use numbers::{append_number, append_number_or_dash, append_word};
pub use texts::{
    append_addresses, append_config, append_hex, append_hex_of_word, append_hex_word, append_meta,
    append_text, append_wait,
};
