// A JSON value (RFC 8259, section 3).
ghost use Rattle.std.specs.Prelude.{◌≡◌, map, option_map};
ghost use Rattle.json_text.specs.Parts.{member_of, member_seen};
ghost use Rattle.json_text.specs.Views.{tree_of};

use grpc_base::Text;

/// A JSON value. An object keeps its members in the text's order, and a number its bytes as written.
#[derive(Debug, Drop)]
pub enum Json {
    Null,
    Bool(bool),
    /// The bytes as written.
    Number(Text),
    /// The characters in UTF-8, with escapes read.
    Str(Text),
    List(Vec<Json>),
    /// Names and values.
    Object(Vec<(Text, Json)>),
}

impl Json {
    ghost use Rattle.json_text.specs.Parts.{flag_in, number_in, text_in, values_in, members_in, member_in};

    /// True or false, if it is one of these.
    pub fn as_bool(&self) -> Option<bool>
        ensures { result ≡ flag_in (tree_of self.now) }
    {
        match self {
            Json::Bool(flag) => Some(*flag),
            _ => None,
        }
    }

    /// The bytes of a number as written.
    pub fn as_number(&self) -> Option<&[u8]>
        ensures { option_map (λ t. t.now) result ≡ number_in (tree_of self.now) }
    {
        match self {
            Json::Number(text) => Some(text.as_slice()),
            _ => None,
        }
    }

    /// The characters of a string in UTF-8.
    pub fn as_str(&self) -> Option<&[u8]>
        ensures { option_map (λ t. t.now) result ≡ text_in (tree_of self.now) }
    {
        match self {
            Json::Str(text) => Some(text.as_slice()),
            _ => None,
        }
    }

    /// The values of a list.
    pub fn as_list(&self) -> Option<&[Json]>
        ensures { option_map (λ vs. map tree_of vs.now) result ≡ values_in (tree_of self.now) }
    {
        match self {
            Json::List(values) => Some(values.as_slice()),
            _ => None,
        }
    }

    /// The members of an object: names and values.
    pub fn as_object(&self) -> Option<&[(Text, Json)]>
        ensures { option_map (λ ms. map member_seen ms.now) result ≡ members_in (tree_of self.now) }
    {
        match self {
            Json::Object(members) => Some(members.as_slice()),
            _ => None,
        }
    }

    /// The value that an object has under this name.
    pub fn member(&self, name: &[u8]) -> Option<&Json>
        ensures { option_map (λ v. tree_of v.now) result ≡ member_in name.now (tree_of self.now) }
    {
        member_of(self.as_object()?, name)
    }
}

/// The value of the first of these members that has this name.
pub fn member_of<'a>(members: &'a [(Text, Json)], name: &[u8]) -> Option<&'a Json>
    ensures { option_map (λ v. tree_of v.now) result ≡ member_of name.now (map member_seen members.now) }
{
    let mut rest = members;
    while let [first, others @ ..] = rest {
        if first.0.as_slice() == name {
            return Some(&first.1);
        }
        rest = others;
    }
    None
}
