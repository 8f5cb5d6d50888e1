// Header blocks of HTTP/2: HPACK with its two tables and Huffman text, as RFC 7541 has them.
#![tactic(auto)]

mod decoder;
mod encoder;
mod fault;
mod huffman;
mod integer;
mod kind;
mod laws;
mod list;
mod lookup;
mod representation;
mod size;
mod states;
mod static_table;
mod table;
mod text;

pub use decoder::Decoder;
pub use encoder::{SIZE_UPDATE_TO_ZERO, append_fields, encode_fields};
pub use fault::HpackFault;
pub use laws::{
    blocks_are_read_in_turn, blocks_are_representations, encoding_fits_a_frame, encoding_is_read,
    encoding_is_read_after_an_update, huffman_code_is_whole, huffman_text_is_exact,
};
