// Header fields and the head of a response. After Firefox's nsHttpHeaderArray and nsHttpResponseHead in outline; the
// lengths, and names in lower case only, are this project's own.

ghost use Rattle.std.specs.Prelude.{◌≡◌, ◌↔◌, IsTrue, IfOk};
ghost use Rattle.std.specs.List.{list_all};
ghost use Rattle.nk_base.specs.Fields.{is_name_byte, is_value_byte, is_space, is_good_name, is_good_value, is_good_field, are_good_fields};
ghost use Rattle.nk_base.specs.Heads.{is_status_code};
ghost use Rattle.nk_base.specs.HeadAnswers.{bad_field, head_answer};

use crate::list::{Share, Shared};
use crate::status::Memory;
use bytes::Bytes;
use http::StatusCode;
use std::alloc::Global;
use std::marker::Model;

/// A field's name: bytes that are shared by all that hold it. It is good where it has 1 to 64 bytes, each of a to z,
/// 0 to 9 or a mark that HTTP's tokens may have.
#[derive(Drop)]
pub struct Name {
    bytes: Bytes,
}

impl Model for Name {
    ghost use Rattle.std.specs.Prelude.{List, ℕ};

    ghost Value = { List ℕ };

    ghost view = { λ s. s.bytes };
}

impl Name {
    /// The most bytes of a good name.
    pub const MOST: usize = 64;

    /// The name with these bytes, good or not.
    pub fn new(alloc: Global, source: &[u8]) -> Result<Name, Memory>
        ensures { IfOk result (λ r. r ≡ source.now) }
    {
        match Bytes::copy_from_slice(alloc, source) {
            Ok(bytes) => Ok(Name { bytes }),
            Err(_) => Err(Memory),
        }
    }

    /// An equal name over the same bytes.
    pub fn share(&self) -> Result<Name, Memory>
        ensures { IfOk result (λ r. r ≡ self.now) }
    {
        match self.bytes.clone() {
            Ok(bytes) => Ok(Name { bytes }),
            Err(_) => Err(Memory),
        }
    }

    /// Whether the two have the same bytes.
    pub fn same(&self, other: &Name) -> bool
        ensures { IsTrue result ↔ (self.now ≡ other.now) }
    {
        self.bytes.as_slice() == other.bytes.as_slice()
    }

    /// Its bytes.
    pub fn as_slice(&self) -> &[u8]
        ensures { result.now ≡ self.now }
    {
        self.bytes.as_slice()
    }

    /// Whether the name is good.
    pub fn is_good(&self) -> bool
        ensures { result ≡ is_good_name self.now }
    {
        let bytes = self.bytes.as_slice();
        (1..=Name::MOST).contains(&bytes.len()) && are_name_bytes(bytes)
    }
}

/// Whether a name may have this byte: a to z, 0 to 9, or a mark of HTTP's tokens.
fn is_name_byte(byte: u8) -> bool
    ensures { result ≡ is_name_byte byte }
{
    match byte {
        b'a'..=b'z' | b'0'..=b'9' => true,
        b'!' | b'#' | b'$' | b'%' | b'&' | b'\'' | b'*' | b'+' | b'-' | b'.' => true,
        b'^' | b'_' | b'`' | b'|' | b'~' => true,
        _ => false,
    }
}

/// Whether a name may have each of these bytes.
fn are_name_bytes(bytes: &[u8]) -> bool
    ensures { result ≡ list_all is_name_byte bytes.now }
{
    bytes.iter().all(|&byte| is_name_byte(byte))
}

/// A field's value: bytes that are shared by all that hold it. It is good where it has 1 to 8,192 bytes from 0x20 to
/// 0x7e, the first and the last not a space.
#[derive(Drop)]
pub struct Value {
    bytes: Bytes,
}

impl Model for Value {
    ghost use Rattle.std.specs.Prelude.{List, ℕ};

    ghost Value = { List ℕ };

    ghost view = { λ s. s.bytes };
}

impl Value {
    /// The most bytes of a good value.
    pub const MOST: usize = 8192;

    /// The value with these bytes, good or not.
    pub fn new(alloc: Global, source: &[u8]) -> Result<Value, Memory>
        ensures { IfOk result (λ r. r ≡ source.now) }
    {
        match Bytes::copy_from_slice(alloc, source) {
            Ok(bytes) => Ok(Value { bytes }),
            Err(_) => Err(Memory),
        }
    }

    /// An equal value over the same bytes.
    pub fn share(&self) -> Result<Value, Memory>
        ensures { IfOk result (λ r. r ≡ self.now) }
    {
        match self.bytes.clone() {
            Ok(bytes) => Ok(Value { bytes }),
            Err(_) => Err(Memory),
        }
    }

    /// Whether the two have the same bytes.
    pub fn same(&self, other: &Value) -> bool
        ensures { IsTrue result ↔ (self.now ≡ other.now) }
    {
        self.bytes.as_slice() == other.bytes.as_slice()
    }

    /// Its bytes.
    pub fn as_slice(&self) -> &[u8]
        ensures { result.now ≡ self.now }
    {
        self.bytes.as_slice()
    }

    /// Whether the value is good.
    pub fn is_good(&self) -> bool
        ensures { result ≡ is_good_value self.now }
    {
        let bytes = self.bytes.as_slice();
        (1..=Value::MOST).contains(&bytes.len())
            && are_value_bytes(bytes)
            && !is_space(bytes.first().copied())
            && !is_space(bytes.last().copied())
    }
}

/// Whether a value may have this byte.
fn is_value_byte(byte: u8) -> bool
    ensures { result ≡ is_value_byte byte }
{
    (0x20..=0x7e).contains(&byte)
}

/// Whether a value may have each of these bytes.
fn are_value_bytes(bytes: &[u8]) -> bool
    ensures { result ≡ list_all is_value_byte bytes.now }
{
    bytes.iter().all(|&byte| is_value_byte(byte))
}

/// Whether a value's first or last byte is a space.
fn is_space(end: Option<u8>) -> bool
    ensures { result ≡ is_space end }
{
    end == Some(b' ')
}

/// A header field, good or not.
#[derive(Drop)]
pub struct Field {
    /// Its name, in lower case.
    pub name: Name,
    /// Its value.
    pub value: Value,
}

impl Field {
    /// Whether its name and its value are good.
    pub fn is_good(&self) -> bool
        ensures { result ≡ is_good_field self.now }
    {
        self.name.is_good() && self.value.is_good()
    }
}

impl Share for Field {
    fn shared(&self) -> Result<Field, Memory> {
        let name = self.name.share()?;
        let value = self.value.share()?;
        Ok(Field { name, value })
    }

    fn is(&self, other: &Field) -> bool {
        self.name.same(&other.name) && self.value.same(&other.value)
    }
}

/// A list of header fields, in order.
pub type Fields = Shared<Field>;

impl Shared<Field> {
    /// The most fields of a head, and the most trailers of a body.
    pub const MOST: usize = 64;

    /// Whether all fields are good.
    pub fn are_good(&self) -> bool
        ensures { result ≡ are_good_fields self.now }
    {
        are_good_fields(self.as_slice())
    }
}

/// Whether all of these fields are good.
fn are_good_fields(fields: &[Field]) -> bool
    ensures { result ≡ are_good_fields fields.now }
{
    for field in fields {
        if !field.is_good() {
            return false;
        }
    }
    true
}

/// What is wrong with the first of these fields that is not good.
fn bad_field(fields: &[Field]) -> Option<HeadError>
    ensures { result ≡ bad_field 0 fields.now }
{
    for (i, field) in fields.iter().enumerate() {
        if !field.name.is_good() {
            return Some(HeadError::BadName(i));
        }
        if !field.value.is_good() {
            return Some(HeadError::BadValue(i));
        }
    }
    None
}

/// Whether a response may have this code: whether it has three digits.
fn is_status_code(code: u16) -> bool
    ensures { result ≡ is_status_code code }
{
    StatusCode::from_u16(code).is_ok()
}

/// The code and the fields of a response: a code from 100 to 999, and at most 64 fields, all good.
#[derive(Drop)]
pub struct Head {
    /// The response's status code.
    pub code: u16,
    /// Its fields, in order.
    pub fields: Fields,
}

impl Model for Head {
    ghost use Rattle.nk_base.specs.Heads.{HeadParts, IsGoodHead};

    ghost Value = { HeadParts };

    ghost view = { λ s. record { code = s.code; fields = s.fields } };

    ghost invariant = { λ s. IsGoodHead (record { code = s.code; fields = s.fields }) };
}

/// Why a code and fields are no head. Fields are counted from 0.
#[derive(Clone, Copy, Debug, Drop, PartialEq, Eq)]
pub enum HeadError {
    /// The code is not from 100 to 999.
    BadCode(u16),
    /// There are so many fields, more than 64.
    TooMany(usize),
    /// The name of this field is not good, and all fields before it are.
    BadName(usize),
    /// The value of this field is not good, its name and all fields before it are.
    BadValue(usize),
}

impl Head {
    /// The head with this code and these fields, which are dropped where they are none. The first cause of
    /// `HeadError` that applies is answered.
    pub fn new(code: u16, fields: Fields) -> Result<Head, HeadError>
        ensures { result ≡ head_answer code fields }
    {
        if !is_status_code(code) {
            return Err(HeadError::BadCode(code));
        }
        if fields.len() > Fields::MOST {
            return Err(HeadError::TooMany(fields.len()));
        }
        match bad_field(fields.as_slice()) {
            None => Ok(Head { code, fields }),
            Some(error) => Err(error),
        }
    }

    /// Whether the two have the same code and the same fields.
    pub fn same(&self, other: &Head) -> bool
        ensures { IsTrue result ↔ (self.now ≡ other.now) }
    {
        self.code == other.code && self.fields.same(&other.fields)
    }

    /// An equal head over the same bytes.
    pub fn share(&self) -> Result<Head, Memory>
        ensures { IfOk result (λ r. r ≡ self.now) }
    {
        let fields = self.fields.share()?;
        Ok(Head {
            code: self.code,
            fields,
        })
    }
}
