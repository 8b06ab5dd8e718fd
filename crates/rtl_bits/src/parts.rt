//! Parts of a vector, and vectors made of others.

ghost use Rattle.std.specs.Prelude.{◌≡◌, ◌≤◌, ◌<◌, ◌+◌, ◌-◌, ◌*◌, ◌++◌, ◌↔◌, length, take, drop, IsSome, IfSome};
ghost use Rattle.rtl_bits.specs.Bits.{selected, replaced, extended, copies};

use crate::{Bit, Vec4};

impl Vec4 {
    /// The `width` bits from a place on.
    pub fn select(self, at: u8, width: u8) -> Vec4
        requires not_empty { 1 ≤ width }
        requires inside { at + width ≤ length self }
        ensures bits { result ≡ selected at width self }
        ensures width { length result ≡ width }
    {
        self.high(at).low(width)
    }

    /// These bits, with `part` over those from a place on.
    pub fn replace(self, at: u8, part: Vec4) -> Vec4
        requires { at + length part ≤ length self }
        ensures bits { result ≡ replaced at part self }
        ensures width { length result ≡ length self }
    {
        let end = at + part.width();
        let front = if at == 0 {
            part
        } else {
            self.low(at).join(part)
        };
        if end == self.width() {
            front
        } else {
            front.join(self.high(end))
        }
    }

    /// These bits at another width: cut, or filled with 0, or where they are signed with the
    /// highest.
    pub fn extend(self, width: u8, signed: bool) -> Vec4
        requires not_empty { 1 ≤ width }
        requires at_most { width ≤ 128 }
        ensures bits { result ≡ extended width signed self }
        ensures width { length result ≡ width }
    {
        let own_width = self.width();
        if width <= own_width {
            return self.low(width);
        }
        let fill = if signed {
            self.bit(own_width - 1)
        } else {
            Bit::Zero
        };
        self.join(Vec4::filled(width - own_width, fill))
    }

    /// These bits above those of `low`. None where that is more than 128 bits.
    pub fn concat(self, low: Vec4) -> Option<Vec4>
        ensures some { IsSome result ↔ (length self + length low ≤ 128) }
        ensures bits { IfSome result (λ v. v ≡ low ++ self) }
        ensures width { IfSome result (λ v. length v ≡ length self + length low) }
    {
        if self.width() > 128 - low.width() {
            return None;
        }
        Some(low.join(self))
    }

    /// These bits some times over. None where that is no bit, or more than 128.
    pub fn repeat(self, times: u32) -> Option<Vec4>
        ensures some { IsSome result ↔ (1 ≤ times) × (times * length self ≤ 128) }
        ensures bits { IfSome result (λ v. v ≡ copies times self) }
        ensures width { IfSome result (λ v. length v ≡ times * length self) }
    {
        if times == 0 {
            return None;
        }
        if times > 128 / self.width() as u32 {
            return None;
        }
        let mut all = self;
        for _ in 1..times {
            all = self.join(all);
        }
        Some(all)
    }

    /// The `width` least significant bits.
    pub(crate) fn low(self, width: u8) -> Vec4
        requires not_empty { 1 ≤ width }
        requires inside { width ≤ length self }
        ensures bits { result ≡ take width self }
        ensures width { length result ≡ width }
    {
        let _ = self.width();
        Vec4::of_digits(width, self.val, self.unk)
    }

    /// The bits from a place on.
    pub(crate) fn high(self, at: u8) -> Vec4
        requires { at < length self }
        ensures bits { result ≡ drop at self }
        ensures width { length result ≡ length self - at }
    {
        let width = self.width();
        Vec4::of_digits(width - at, self.val >> at, self.unk >> at)
    }

    /// These bits, and those of `high` above them.
    pub(crate) fn join(self, high: Vec4) -> Vec4
        requires { length self + length high ≤ 128 }
        ensures bits { result ≡ self ++ high }
        ensures width { length result ≡ length self + length high }
    {
        let low_width = self.width();
        Vec4::of_digits(
            low_width + high.width(),
            self.val | high.val << low_width,
            self.unk | high.unk << low_width,
        )
    }
}
