//! The numbers of ports (RFC 3986 section 3.2.3).
ghost use Rattle.std.specs.{Prelude.{◌≡◌, ◌^◌, IfOk}, Result.{result_ok}};
ghost use Rattle.iref_grammar.specs.{is_empty};
ghost use Rattle.iref_grammar.specs.PortNumbers.{port_text};
ghost use Rattle.iref_component.specs.{Components.{text_of}, Ports.{port_number, signed_port_number}};

use crate::component_rules::PortRule;
use crate::named_texts::{Port, PortBuf};
use crate::rule_text::{RuleText, Storage};
use iref_fault::PortError;
use iref_grammar::chars::UriChars;
use iref_splice::Memory;
use std::alloc::Global;
use std::convert::TryFrom;

impl<S: Storage> RuleText<S, PortRule, UriChars> {
    /// Whether the text is empty: so is the port of `//h:`.
    pub fn is_empty(&self) -> bool
        ensures { result ≡ is_empty (text_of self.now) }
    {
        self.as_borrowed().as_str().is_empty()
    }

    /// The number, if it fits a `u8`: of `80` 80, of `256` None.
    pub fn as_u8(&self) -> Option<u8>
        ensures { result ≡ result_ok (port_number (2 ^ 8) (text_of self.now)) }
    {
        u8::try_from(self.as_borrowed()).ok()
    }

    /// The number, if it fits a `u16`: of `80` and of `0080` it is 80; of `65536` and of the empty port
    /// None.
    pub fn as_u16(&self) -> Option<u16>
        ensures { result ≡ result_ok (port_number (2 ^ 16) (text_of self.now)) }
    {
        u16::try_from(self.as_borrowed()).ok()
    }

    /// The number, if it fits a `u32`: of `80` 80, of `4294967296` None.
    pub fn as_u32(&self) -> Option<u32>
        ensures { result ≡ result_ok (port_number (2 ^ 32) (text_of self.now)) }
    {
        u32::try_from(self.as_borrowed()).ok()
    }

    /// The number, if it fits a `u64`: of `80` 80, of `18446744073709551616` None.
    pub fn as_u64(&self) -> Option<u64>
        ensures { result ≡ result_ok (port_number (2 ^ 64) (text_of self.now)) }
    {
        u64::try_from(self.as_borrowed()).ok()
    }

    /// The number, if it fits a `u128`: of `80` 80, of the empty port None.
    pub fn as_u128(&self) -> Option<u128>
        ensures { result ≡ result_ok (port_number (2 ^ 128) (text_of self.now)) }
    {
        u128::try_from(self.as_borrowed()).ok()
    }

    /// The number, if it fits an `i8`: of `80` 80, of `128` None.
    pub fn as_i8(&self) -> Option<i8>
        ensures { result ≡ result_ok (signed_port_number (2 ^ 7) (text_of self.now)) }
    {
        i8::try_from(self.as_borrowed()).ok()
    }

    /// The number, if it fits an `i16`: of `80` 80, of `32768` None.
    pub fn as_i16(&self) -> Option<i16>
        ensures { result ≡ result_ok (signed_port_number (2 ^ 15) (text_of self.now)) }
    {
        i16::try_from(self.as_borrowed()).ok()
    }

    /// The number, if it fits an `i32`: of `80` 80, of `2147483648` None.
    pub fn as_i32(&self) -> Option<i32>
        ensures { result ≡ result_ok (signed_port_number (2 ^ 31) (text_of self.now)) }
    {
        i32::try_from(self.as_borrowed()).ok()
    }

    /// The number, if it fits an `i64`: of `80` 80, of `9223372036854775808` None.
    pub fn as_i64(&self) -> Option<i64>
        ensures { result ≡ result_ok (signed_port_number (2 ^ 63) (text_of self.now)) }
    {
        i64::try_from(self.as_borrowed()).ok()
    }

    /// The number, if it fits an `i128`: of `80` 80, of the empty port None.
    pub fn as_i128(&self) -> Option<i128>
        ensures { result ≡ result_ok (signed_port_number (2 ^ 127) (text_of self.now)) }
    {
        i128::try_from(self.as_borrowed()).ok()
    }
}

impl TryFrom<Port<'_>> for u8 {
    type Error = PortError;

    ghost try_from_gives = { λ port n. n ≡ port_number (2 ^ 8) (text_of port) };

    fn try_from(port: Port<'_>) -> Result<u8, PortError> {
        u8::try_from(u128::try_from(port)?).or(Err(PortError::OutOfRange))
    }
}

impl TryFrom<Port<'_>> for u16 {
    type Error = PortError;

    ghost try_from_gives = { λ port n. n ≡ port_number (2 ^ 16) (text_of port) };

    fn try_from(port: Port<'_>) -> Result<u16, PortError> {
        u16::try_from(u128::try_from(port)?).or(Err(PortError::OutOfRange))
    }
}

impl TryFrom<Port<'_>> for u32 {
    type Error = PortError;

    ghost try_from_gives = { λ port n. n ≡ port_number (2 ^ 32) (text_of port) };

    fn try_from(port: Port<'_>) -> Result<u32, PortError> {
        u32::try_from(u128::try_from(port)?).or(Err(PortError::OutOfRange))
    }
}

impl TryFrom<Port<'_>> for u64 {
    type Error = PortError;

    ghost try_from_gives = { λ port n. n ≡ port_number (2 ^ 64) (text_of port) };

    fn try_from(port: Port<'_>) -> Result<u64, PortError> {
        u64::try_from(u128::try_from(port)?).or(Err(PortError::OutOfRange))
    }
}

impl TryFrom<Port<'_>> for u128 {
    type Error = PortError;

    ghost try_from_gives = { λ port n. n ≡ port_number (2 ^ 128) (text_of port) };

    fn try_from(port: Port<'_>) -> Result<u128, PortError> {
        let digits = port.as_str();
        if digits.is_empty() {
            return Err(PortError::Empty);
        }
        digits.parse::<u128>().or(Err(PortError::OutOfRange))
    }
}

impl TryFrom<Port<'_>> for i8 {
    type Error = PortError;

    ghost try_from_gives = { λ port n. n ≡ signed_port_number (2 ^ 7) (text_of port) };

    fn try_from(port: Port<'_>) -> Result<i8, PortError> {
        i8::try_from(u128::try_from(port)?).or(Err(PortError::OutOfRange))
    }
}

impl TryFrom<Port<'_>> for i16 {
    type Error = PortError;

    ghost try_from_gives = { λ port n. n ≡ signed_port_number (2 ^ 15) (text_of port) };

    fn try_from(port: Port<'_>) -> Result<i16, PortError> {
        i16::try_from(u128::try_from(port)?).or(Err(PortError::OutOfRange))
    }
}

impl TryFrom<Port<'_>> for i32 {
    type Error = PortError;

    ghost try_from_gives = { λ port n. n ≡ signed_port_number (2 ^ 31) (text_of port) };

    fn try_from(port: Port<'_>) -> Result<i32, PortError> {
        i32::try_from(u128::try_from(port)?).or(Err(PortError::OutOfRange))
    }
}

impl TryFrom<Port<'_>> for i64 {
    type Error = PortError;

    ghost try_from_gives = { λ port n. n ≡ signed_port_number (2 ^ 63) (text_of port) };

    fn try_from(port: Port<'_>) -> Result<i64, PortError> {
        i64::try_from(u128::try_from(port)?).or(Err(PortError::OutOfRange))
    }
}

impl TryFrom<Port<'_>> for i128 {
    type Error = PortError;

    ghost try_from_gives = { λ port n. n ≡ signed_port_number (2 ^ 127) (text_of port) };

    fn try_from(port: Port<'_>) -> Result<i128, PortError> {
        i128::try_from(u128::try_from(port)?).or(Err(PortError::OutOfRange))
    }
}

impl PortBuf {
    /// The port of this number, in decimal digits without leading zeros: of 80, `80`. Out of
    /// memory, it returns `Memory`.
    pub fn from_u8(alloc: Global, number: u8) -> Result<Self, Memory>
        ensures { IfOk result (λ port. text_of port ≡ port_text number) }
    {
        PortBuf::from_u128(alloc, number as u128)
    }

    /// The port of this number, in decimal digits without leading zeros: of 80, `80`. Out of
    /// memory, it returns `Memory`.
    pub fn from_u16(alloc: Global, number: u16) -> Result<Self, Memory>
        ensures { IfOk result (λ port. text_of port ≡ port_text number) }
    {
        PortBuf::from_u128(alloc, number as u128)
    }

    /// The port of this number, in decimal digits without leading zeros: of 80, `80`. Out of
    /// memory, it returns `Memory`.
    pub fn from_u32(alloc: Global, number: u32) -> Result<Self, Memory>
        ensures { IfOk result (λ port. text_of port ≡ port_text number) }
    {
        PortBuf::from_u128(alloc, number as u128)
    }

    /// The port of this number, in decimal digits without leading zeros: of 80, `80`. Out of
    /// memory, it returns `Memory`.
    pub fn from_u64(alloc: Global, number: u64) -> Result<Self, Memory>
        ensures { IfOk result (λ port. text_of port ≡ port_text number) }
    {
        PortBuf::from_u128(alloc, number as u128)
    }

    /// The port of this number, in decimal digits without leading zeros: of 80, `80`. Out of
    /// memory, it returns `Memory`.
    #[tactic(auto, using(iref_grammar::proofs::PortNumberLemmas::written))]
    pub fn from_u128(alloc: Global, number: u128) -> Result<Self, Memory>
        ensures { IfOk result (λ port. text_of port ≡ port_text number) }
    {
        let text = number.to_string(alloc)?;
        Ok(PortBuf::new_unchecked(text))
    }
}
