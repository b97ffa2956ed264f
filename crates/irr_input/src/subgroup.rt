// The subgroup section of an input.
ghost use Rattle.std.specs.Prelude.{ℕ, ◌≡◌, ◌<◌, ◌≤◌, ◌+◌, ◌*◌, ◌^◌, All, IsOk, IfOk, IfErr, IfSome, Some, length};
ghost use Rattle.irr_seitz.specs.Rotation.{rotation_of, IsWithin};
ghost use Rattle.irr_seitz.specs.OperationMeaning.{operation, AreWithin};
ghost use Rattle.irr_triplet.specs.Readable.{IsReadable};
ghost use Rattle.irr_setting.specs.Setting.{IsSmallSetting};
ghost use Rattle.irr_setting_text.specs.SettingFault.{IsBasisText, IsBasisFault, IsOriginText, IsOriginFault};
ghost use Rattle.irr_input.specs.SectionLines.{Begins, HasSettingFault, HasSubgroupFault, IsSubgroupText, setting_reason};
ghost use Rattle.irr_input.specs.InputLines.{IsAt};
ghost use Rattle.irr_input.specs.LineReading.{EndsGenerators, IsSettingFault, IsSettingRead, IsSubFault, IsSubRead, StopsBehind};
ghost use Rattle.irr_input.specs.declared.keyword.Keyword.TheVariants.{Subgroup};
ghost use Rattle.irr_input.specs.declared.input.Reason.{Reason};
ghost use Rattle.irr_input.specs.declared.input.InputError.TheVariants.{Bad};

use crate::input::{InputError, Reason, SubSpec};
use crate::keyword::Keyword;
use crate::lines::{Left, is_at, needed_line, read_generators};
use irr_lines::next_line;
use irr_rat::Vec3;
use irr_setting::Setting;
use irr_setting_text::{Basis, SettingError, read_basis, read_origin};
use irr_token::{Rest, behind};
use std::alloc::Global;

// The subgroup behind the generators of a group, if there is one, and what is left behind it.
pub(crate) fn read_subgroup<'a>(
    alloc: Global,
    left: Left<'a>,
) -> Result<(Option<SubSpec>, Left<'a>), InputError>
    requires fits { left.lines + length left.text.now + 1 < 2 ^ 64 }
    requires ends { EndsGenerators left.text.now }
    ensures read { IfOk result (λ r. IsSubRead left.entry.lines left.entry.text.now r.0 r.1.lines r.1.text.now) }
    ensures setting { IfOk result (λ r. IfSome r.0 (λ s. IsSmallSetting s.setting)) }
    ensures readable { IfOk result (λ r. IfSome r.0 (λ s. All (λ g. IsReadable (operation g.op)) s.gens.items)) }
    ensures few { IfOk result (λ r. IfSome r.0 (λ s. length s.gens.items ≤ r.1.lines)) }
    ensures within { IfOk result (λ r. r.1.lines + length r.1.text.now ≤ left.entry.lines + length left.entry.text.now) }
    ensures forward { IfOk result (λ r. left.entry.lines ≤ r.1.lines) }
    ensures stops { IfOk result (λ r. StopsBehind r.0 r.1.text.now) }
    ensures fault { IfErr result (IsSubFault left.entry.lines left.entry.text.now) }
{
    if !is_at(left.text, Keyword::Subgroup) {
        return Ok((None, left));
    }
    let (sub, left) = read_section_lines(alloc, left)?;
    Ok((Some(sub), left))
}

// The subgroup of a section that begins here, and what is left behind it.
fn read_section_lines<'a>(alloc: Global, left: Left<'a>) -> Result<(SubSpec, Left<'a>), InputError>
    requires fits { left.lines + length left.text.now + 1 < 2 ^ 64 }
    requires begins { IsAt Subgroup left.text.now }
    ensures read { IfOk result (λ r. IsSubRead left.entry.lines left.entry.text.now (Some r.0) r.1.lines r.1.text.now) }
    ensures setting { IfOk result (λ r. IsSmallSetting r.0.setting) }
    ensures readable { IfOk result (λ r. All (λ g. IsReadable (operation g.op)) r.0.gens.items) }
    ensures few { IfOk result (λ r. length r.0.gens.items ≤ r.1.lines) }
    ensures within { IfOk result (λ r. r.1.lines + length r.1.text.now ≤ left.entry.lines + length left.entry.text.now) }
    ensures forward { IfOk result (λ r. left.entry.lines ≤ r.1.lines) }
    ensures ends { IfOk result (λ r. EndsGenerators r.1.text.now) }
    ensures fault { IfErr result (IsSubFault left.entry.lines left.entry.text.now) }
{
    let (first, text) = next_line(left.text);
    let lines = left.lines + 1;
    subgroup_line(first, lines)?;
    let (line, setting, left) = read_setting(Left { text, lines })?;
    let (gens, left) = read_generators(alloc, left)?;
    Ok((
        SubSpec {
            line,
            setting,
            gens,
        },
        left,
    ))
}

// The setting behind the line `subgroup`, with the number of the line of its basis, and what is left behind it.
fn read_setting<'a>(left: Left<'a>) -> Result<(u64, Setting, Left<'a>), InputError>
    requires fits { left.lines + length left.text.now + 1 < 2 ^ 64 }
    ensures read { IfOk result (λ r. IsSettingRead left.entry.lines left.entry.text.now r.0 r.1 r.2.lines r.2.text.now) }
    ensures setting { IfOk result (λ r. IsSmallSetting r.1) }
    ensures within { IfOk result (λ r. r.2.lines + length r.2.text.now ≤ left.entry.lines + length left.entry.text.now) }
    ensures forward { IfOk result (λ r. left.entry.lines ≤ r.2.lines) }
    ensures fault { IfErr result (IsSettingFault left.entry.lines left.entry.text.now) }
{
    let (line, left) = needed_line(left, Keyword::Basis)?;
    let number = left.lines;
    let basis = basis_line(line, number)?;
    let (line, left) = needed_line(left, Keyword::Origin)?;
    let shift = origin_line(line, left.lines)?;
    let num = basis.num;
    let den = basis.den;
    Ok((number, Setting { num, den, shift }, left))
}

// Whether the line of this number, whose first word is `subgroup`, has no other word.
fn subgroup_line(line: &[u8], number: u64) -> Result<(), InputError>
    requires { Begins Subgroup line.now }
    ensures text { IsOk result → IsSubgroupText line.now }
    ensures fault { IfErr result (λ e. (reason : Reason) × (e ≡ Bad number reason) × HasSubgroupFault line.now reason) }
{
    let place = 0;
    let word = behind(Rest { place, text: line }, 0);
    let rest = behind(word, b"subgroup".len());
    if rest.text.is_empty() {
        return Ok(());
    }
    Err(InputError::Bad {
        line: number,
        reason: Reason::Shape(rest.place as u64),
    })
}

// The basis that the line of this number writes.
fn basis_line(line: &[u8], number: u64) -> Result<Basis, InputError>
    ensures read { IfOk result (λ b. IsBasisText line.now b.num b.den) }
    ensures within { IfOk result (λ b. IsWithin (10 ^ 4) (rotation_of b.num)) }
    ensures denominator { IfOk result (λ b. (0 < b.den) × (b.den ≤ 100)) }
    ensures fault { IfErr result (λ e. (reason : Reason) × (e ≡ Bad number reason) × HasSettingFault IsBasisFault line.now reason) }
{
    match read_basis(line) {
        Ok(basis) => Ok(basis),
        Err(error) => Err(InputError::Bad {
            line: number,
            reason: reason_of(error),
        }),
    }
}

// The origin that the line of this number writes.
fn origin_line(line: &[u8], number: u64) -> Result<Vec3, InputError>
    ensures read { IfOk result (λ p. IsOriginText line.now p) }
    ensures near { IfOk result (λ p. AreWithin (1000 * p.den) p.num) }
    ensures denominator { IfOk result (λ p. p.den ≤ 1000) }
    ensures fault { IfErr result (λ e. (reason : Reason) × (e ≡ Bad number reason) × HasSettingFault IsOriginFault line.now reason) }
{
    match read_origin(line) {
        Ok(origin) => Ok(origin),
        Err(error) => Err(InputError::Bad {
            line: number,
            reason: reason_of(error),
        }),
    }
}

// The reason of a line that is none of a setting.
fn reason_of(error: SettingError) -> Reason
    ensures { result ≡ setting_reason error }
{
    match error {
        SettingError::Shape(place) => Reason::Shape(place),
        SettingError::Zero(place) => Reason::Zero(place),
        SettingError::Range(place) => Reason::Range(place),
    }
}
