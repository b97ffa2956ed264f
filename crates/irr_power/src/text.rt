// The texts of squares and of tensors.
ghost use Rattle.std.specs.Prelude.{◌≡◌, ◌++◌, IfOk, OnOk, codes, map};
ghost use Rattle.std.specs.List.{flat_map};
ghost use Rattle.irr_seitz.specs.PhaseMeaning.{sign_of};
ghost use Rattle.irr_text.specs.ReportText.{line, next_word};
ghost use Rattle.irr_kvec.specs.WaveMeaning.{wave_vector};
ghost use Rattle.irr_input.specs.Command.{form_word};
ghost use Rattle.irr_power.specs.Squares.{square_entry};
ghost use Rattle.irr_power.specs.SquareText.{square_lines, square_text};
ghost use Rattle.irr_power.specs.Tensors.{tensor_entry};
ghost use Rattle.irr_power.specs.TensorText.{tensor_text};

use crate::parts::{SquareParts, TensorParts};
use irr_heading::push_heading;
use irr_input::Form;
use irr_kvec::Wave;
use irr_memory::Memory;
use irr_product::push_parts;
use irr_seitz::Phase;
use std::alloc::Global;

/// The text of squares: the order of the numbers, the wave vector, and for each label the number of rows and the parts
/// of the symmetric square, and those of the antisymmetric one. The error is want of memory.
pub fn text_square(
    alloc: Global,
    order: u32,
    k: &Wave,
    squares: &[SquareParts],
    version: u32,
    phase: Phase,
) -> Result<Vec<u8>, Memory>
    ensures { IfOk result (λ text. text.items ≡ square_text version (sign_of phase) record {
      wave = wave_vector k.now;
      order = order;
      squares = map square_entry squares.now;
    }) }
{
    let mut text = Vec::new(alloc);
    push_heading(alloc, &mut text, b"square", version, phase)?;
    text.extend_from_slice(format!(in alloc; "order {order}\nwave {k}\n")?.as_bytes())?;
    push_squares(alloc, &mut text, squares)?;
    text.extend_from_slice(b"end\n")?;
    Ok(text)
}

// Appends the lines of squares.
fn push_squares(alloc: Global, text: &mut Vec<u8>, squares: &[SquareParts]) -> Result<(), Memory>
    ensures { OnOk result (text.new.items ≡ text.old.items ++ flat_map square_lines (map square_entry squares.now)) }
{
    for square in squares {
        push_square(alloc, text, square)?;
    }
    Ok(())
}

// Appends the lines of the squares of one full representation.
fn push_square(alloc: Global, text: &mut Vec<u8>, square: &SquareParts) -> Result<(), Memory>
    ensures { OnOk result (text.new.items ≡ text.old.items ++ square_lines (square_entry square.now)) }
{
    let label = square.label;
    let sym_dim = square.sym_dim;
    let anti_dim = square.anti_dim;
    text.extend_from_slice(format!(in alloc; "sym S{label} dim {sym_dim}\n")?.as_bytes())?;
    push_parts(alloc, text, &square.sym)?;
    text.extend_from_slice(format!(in alloc; "anti S{label} dim {anti_dim}\n")?.as_bytes())?;
    push_parts(alloc, text, &square.anti)?;
    Ok(())
}

/// The text of the tensors of a form: the form, the order of the numbers, the number of components, and the parts. The
/// error is want of memory.
pub fn text_tensor(
    alloc: Global,
    order: u32,
    form: Form,
    tensor: &TensorParts,
    version: u32,
    phase: Phase,
) -> Result<Vec<u8>, Memory>
    ensures { IfOk result (λ text. text.items ≡ tensor_text version (sign_of phase) record {
      form = form;
      order = order;
      tensor = tensor_entry tensor.now;
    }) }
{
    let mut text = Vec::new(alloc);
    push_heading(alloc, &mut text, b"tensor", version, phase)?;
    push_form(&mut text, form)?;
    let dim = tensor.dim;
    text.extend_from_slice(format!(in alloc; "order {order}\ndim {dim}\n")?.as_bytes())?;
    push_parts(alloc, &mut text, &tensor.parts)?;
    text.extend_from_slice(b"end\n")?;
    Ok(text)
}

// Appends the line of a form.
fn push_form(text: &mut Vec<u8>, form: Form) -> Result<(), Memory>
    ensures { OnOk result (text.new.items ≡ text.old.items ++ line (codes "form" ++ next_word (form_word form))) }
{
    text.extend_from_slice(form_line(form))?;
    Ok(())
}

// The line of a form.
fn form_line(form: Form) -> &'static [u8]
    ensures { result.now ≡ line (codes "form" ++ next_word (form_word form)) }
{
    match form {
        Form::Rank1 => b"form 1\n",
        Form::Rank2 => b"form 2\n",
        Form::Rank3 => b"form 3\n",
        Form::Rank4 => b"form 4\n",
        Form::Sym2 => b"form sym2\n",
        Form::Anti2 => b"form anti2\n",
    }
}
