// Laws of the definitions that the contracts cite, each the contract of a call that does nothing.
ghost use Rattle.std.specs.Prelude.{◌≡◌, ◌≤◌, List};
ghost use Rattle.grpc_base.specs.declared.fields.Field.{Field};
ghost use Rattle.h2_hpack.specs.declared.encoder.TheConstants.{SIZE_UPDATE_TO_ZERO};
ghost use Rattle.h2_hpack.specs.Encoding.{size_update_to_zero};
ghost use Rattle.h2_hpack.specs.Laws.{HuffmanIsExact, CodeIsWhole, BlocksAreRepresentations, EncodingIsRead, EncodingIsShort, BlocksInTurn, UpdateIsRead};
ghost use Rattle.h2_hpack.specs.Tables.{list_limit, list_size};

/// Huffman text is read exactly where its bits are the codes of symbols, joined, before at most seven padding ones
/// (RFC 7541, section 5.2).
pub fn huffman_text_is_exact()
    ensures { HuffmanIsExact }
{}

/// No code of the Huffman code begins another one, and the code is complete.
pub fn huffman_code_is_whole()
    ensures { CodeIsWhole }
{}

/// What a block says over a dynamic table is what its representations say, each spelled by integers and strings and
/// with its effect on the header list and the table (RFC 7541, sections 2 to 6). Its fault is that of the first one
/// that cannot be read.
pub fn blocks_are_representations()
    ensures { BlocksAreRepresentations }
{}

/// What `encode_fields` writes of a list of at most 16,384 is read as that list over any table, which it leaves as
/// it was.
pub fn encoding_is_read()
    ensures { EncodingIsRead }
{}

/// The same where the block begins with `SIZE_UPDATE_TO_ZERO`, which leaves the decoder's table empty for good.
pub fn encoding_is_read_after_an_update()
    ensures read { UpdateIsRead }
    ensures constant { SIZE_UPDATE_TO_ZERO ≡ size_update_to_zero }
{}

/// What `encode_fields` writes of a list of at most 16,384 has at most 16,359 bytes, as many as a single field of two long
/// strings takes; so it fits a frame, also after `SIZE_UPDATE_TO_ZERO`.
pub fn encoding_fits_a_frame()
    ensures { (fields : List Field) → list_size fields ≤ list_limit → EncodingIsShort fields }
{}

/// What a decoder answers to the blocks of a connection, one after the other, are their header lists over one table.
pub fn blocks_are_read_in_turn()
    ensures { BlocksInTurn }
{}
