use crate::{
    Command, Form, GenLine, Input, InputError, Reason, Usage, bytes_mean_one_input, read_input,
    read_words, words_mean_one_command,
};
use irr_cyc::Dense;
use irr_kvec::Wave;
use irr_triplet::print_triplet;
use std::alloc::Global;
use std::test::Fail;

// What the words are read as: a command word, the denominators of its point and wave vectors or 0 where there are no
// more, and its number, or that of its form of tensors.
fn words_read(
    alloc: Global,
    words: &[&str],
) -> Result<Result<(&'static str, [u32; 4]), Usage>, Fail> {
    let mut list = Vec::new(alloc);
    for word in words {
        list.push(Vec::from_slice(alloc, word.as_bytes())?)?;
    }
    Ok(read_words(&list).map(|command| parts(&command)))
}

fn parts(command: &Command) -> (&'static str, [u32; 4]) {
    match command {
        Command::Star(k) => ("star", [k.den, 0, 0, 0]),
        Command::Small(k) => ("small", [k.den, 0, 0, 0]),
        Command::Full(k) => ("full", [k.den, 0, 0, 0]),
        Command::Real(k) => ("real", [k.den, 0, 0, 0]),
        Command::Product(k, l) => ("product", [k.den, l.den, 0, 0]),
        Command::Subduce(k) => ("subduce", [k.den, 0, 0, 0]),
        Command::Compat(k, l, m) => ("compat", [k.den, l.den, third(m), 0]),
        Command::Square(k) => ("square", [k.den, 0, 0, 0]),
        Command::Tensor(form) => ("tensor", [0, 0, 0, form_number(*form)]),
        Command::Site(x, k) => ("site", [x.den, k.den, 0, 0]),
        Command::Check => ("check", [0, 0, 0, 0]),
        Command::Gen(number) => ("gen", [0, 0, 0, *number]),
    }
}

fn form_number(form: Form) -> u32 {
    match form {
        Form::Rank1 => 1,
        Form::Rank2 => 2,
        Form::Rank3 => 3,
        Form::Rank4 => 4,
        Form::Sym2 => 5,
        Form::Anti2 => 6,
    }
}

fn third(wave: &Option<Wave>) -> u32 {
    match wave {
        Some(wave) => wave.den,
        None => 0,
    }
}

#[test]
fn words_are_commands(rt: HostRuntime) -> Result<(), Fail> {
    words_mean_one_command();
    for (words, read) in [
        (&["star", "1/4,0,0"][..], ("star", [4, 0, 0, 0])),
        (&["small", "0,1/2,0"], ("small", [2, 0, 0, 0])),
        (&["full", "-1 / 3,\t0,+0"], ("full", [3, 0, 0, 0])),
        (&["real", "1/4,0,0"], ("real", [4, 0, 0, 0])),
        (
            &["product", "1/8,0,0", "0,1/5,0"],
            ("product", [8, 5, 0, 0]),
        ),
        (&["subduce", "0,0,0"], ("subduce", [1, 0, 0, 0])),
        (&["compat", "0,0,0", "0,1/2,0"], ("compat", [1, 2, 0, 0])),
        (
            &["compat", "0,0,0", "1/2,0,0", "0,1/7,0"],
            ("compat", [1, 2, 7, 0]),
        ),
        (&["square", "0,1/2,0"], ("square", [2, 0, 0, 0])),
        (&["tensor", "1"], ("tensor", [0, 0, 0, 1])),
        (&["tensor", "4"], ("tensor", [0, 0, 0, 4])),
        (&["tensor", "sym2"], ("tensor", [0, 0, 0, 5])),
        (&["tensor", "anti2"], ("tensor", [0, 0, 0, 6])),
        (&["site", "1/8,0,0", "0,1/2,0"], ("site", [8, 2, 0, 0])),
        (
            &["site", "-1000/3, 1/8 ,0", "0,0,1/1001"],
            ("site", [24, 1001, 0, 0]),
        ),
        (&["check"], ("check", [0, 0, 0, 0])),
        (&["gen", "007"], ("gen", [0, 0, 0, 7])),
        (&["gen", "4294967295"], ("gen", [0, 0, 0, 4_294_967_295])),
    ] {
        assert!(rt; words_read(rt.alloc(), words)? == Ok(read));
    }
    Ok(())
}

#[test]
fn the_first_faulty_word_is_named(rt: HostRuntime) -> Result<(), Fail> {
    for (words, n) in [
        (&[][..], 1),
        (&["smal", "0,0,0"], 1),
        (&["Small", "0,0,0"], 1),
        (&["small"], 2),
        (&["small", "1/2,0"], 2),
        (&["small", " 0,0,0"], 2),
        (&["small", "1/0,0,0", "0"], 2),
        (&["small", "100001,0,0"], 2),
        (&["small", "0,0,0", "0"], 3),
        (&["product", "0,0,0"], 3),
        (&["product", "0,0,0", "0,0,0", "0,0,0"], 4),
        (&["compat", "0,0,0", "0,0,0", "0"], 4),
        (&["compat", "0,0,0", "0,0,0", "0,0,0", "0,0,0"], 5),
        (&["square"], 2),
        (&["square", "0,0,0", "0,0,0"], 3),
        (&["tensor"], 2),
        (&["tensor", "5"], 2),
        (&["tensor", "01"], 2),
        (&["tensor", "sym2", "1"], 3),
        (&["site", "1001,0,0", "0,0,0"], 2),
        (&["site", "1/1001,0,0", "0,0,0"], 2),
        (&["site", "0,2/2000,0", "0,0,0"], 2),
        (&["site", "1/8,1/9,1/25", "0,0,0"], 2),
        (&["site", "0,0,0"], 3),
        (&["site", "0,0,0", "0,0,0", "0,0,0"], 4),
        (&["check", "0,0,0"], 2),
        (&["gen", "4294967296"], 2),
        (&["gen", "-1"], 2),
        (&["gen", ""], 2),
        (&["gen", "7", "7"], 3),
    ] {
        assert!(rt; words_read(rt.alloc(), words)? == Err(Usage(n)));
    }
    Ok(())
}

// The order of an input's report, or 0 where it has none.
fn order_of(input: &Input<Dense>) -> u32 {
    match &input.report {
        Some(report) => report.order,
        None => 0,
    }
}

// The lines of the generators that are read, 0 where there are no more, the report's order, and the number of lines.
fn input_read(alloc: Global, text: &str) -> Result<([u64; 3], u32, u64), InputError> {
    let input = read_input::<Dense>(alloc, text.as_bytes())?;
    let line = |i: usize| input.gens.get(i).map_or(0, |g| g.line);
    Ok(([line(0), line(1), line(2)], order_of(&input), input.lines))
}

#[test]
fn lines_are_generators_or_skipped(rt: HostRuntime) {
    bytes_mean_one_input();
    for (text, lines, count) in [
        ("", [0, 0, 0], 0),
        ("\n", [0, 0, 0], 1),
        ("-x,-y,-z\n", [1, 0, 0], 1),
        ("-x,-y,-z", [1, 0, 0], 1),
        ("-x,-y,-z\r\nz,x,y\r\n", [1, 2, 0], 2),
        ("# twofold\n\n \t\n' 1/2-X , +y, Z+1/2 '\n", [4, 0, 0], 4),
        ("x,y,z\n \t# x,y\r\n\r\n\"-x,-y,z\"", [1, 4, 0], 4),
        ("#", [0, 0, 0], 1),
        ("# report\nx,y,z\n\n", [2, 0, 0], 3),
    ] {
        assert!(rt;
            input_read(rt.alloc(), text) == Ok((lines, 0, count)),
            "at {text}"
        );
    }
}

#[test]
fn a_report_stands_behind_the_generators(rt: HostRuntime) {
    let text =
        "-x,-y,-z\n\nreport 1\nwave 0,0,0\norder 1\nops 1\nop 1 x,y,z\nreps 1\nrep S1 dim 1\nchar 1\nmat 1 1\nend\n";
    assert!(rt; input_read(rt.alloc(), text) == Ok(([1, 0, 0], 1, 12)));
}

#[test]
fn the_first_faulty_line_is_named(rt: HostRuntime) {
    for (text, line, reason) in [
        ("-x,-y,-z\nx,y\n", 2, Reason::Shape(3)),
        ("-x,-y,-z\nx,x,z\n", 2, Reason::Determinant),
        ("-x,-y,-z\nx+1/0,y,z\n", 2, Reason::Zero(4)),
        ("-x,-y,-z\nx+100001,y,z\n", 2, Reason::Range(2)),
        ("subgroups\n", 1, Reason::Shape(0)),
        ("reports 1\n", 1, Reason::Shape(0)),
        ("x,y,z\nx,y,z\r", 2, Reason::Shape(5)),
        ("x,y\nx,x,z\n", 1, Reason::Shape(3)),
        ("\rx,y,z\n", 1, Reason::Shape(0)),
        ("x,y\nreport 2\n", 1, Reason::Shape(3)),
        ("x,y,z\nreport\t1\n", 2, Reason::Report),
        ("\n#\n  report\t1\n", 3, Reason::Report),
        (
            "x,y,z\nreport 1\nwave 0,0,0\norder 1\nops 1\nop 2 x,y,z\n",
            6,
            Reason::Report,
        ),
        ("x,y,z\nreport 1\n", 3, Reason::Report),
    ] {
        assert!(rt;
            input_read(rt.alloc(), text) == Err(InputError::Bad { line, reason }),
            "at {text}"
        );
    }
}

// The subgroup of an input: the line of its basis, the rows of the basis and their denominator, the origin and its
// denominator, and the lines of its generators, 0 where there are no more.
fn subgroup_read(
    alloc: Global,
    text: &str,
) -> Result<Option<(u64, [[i64; 3]; 3], u32, [i64; 3], u32, [u64; 2])>, InputError> {
    let input = read_input::<Dense>(alloc, text.as_bytes())?;
    match &input.sub {
        Some(sub) => {
            let line = |i: usize| sub.gens.get(i).map_or(0, |g| g.line);
            let setting = sub.setting;
            let num = setting.num;
            let shift = setting.shift;
            let origin = shift.num;
            let gens = [line(0), line(1)];
            Ok(Some((sub.line, num, setting.den, origin, shift.den, gens)))
        }
        None => Ok(None),
    }
}

#[test]
fn a_subgroup_stands_behind_the_generators(rt: HostRuntime) {
    let text =
        "x,y,z\n # c\nsubgroup \n\n  basis 1/2 1/2 0 -1/2 1/2 0 0 0 1 \n#\n\torigin 1/4 0 -1/8\n\nx,y,-z\n-x,y,z\n";
    assert!(rt; input_read(rt.alloc(), text) == Ok(([1, 0, 0], 0, 10)));
    assert!(rt;
        subgroup_read(rt.alloc(), text)
            == Ok(Some((
                5,
                [[1, 1, 0], [-1, 1, 0], [0, 0, 2]],
                2,
                [2, 0, -1],
                8,
                [9, 10]
            )))
    );
}

#[test]
fn a_subgroup_may_lack_generators(rt: HostRuntime) {
    let text = "subgroup\nbasis 2 0 0 0 1 0 0 0 1\norigin 0 0 0";
    assert!(rt; input_read(rt.alloc(), text) == Ok(([0, 0, 0], 0, 3)));
    assert!(rt;
        subgroup_read(rt.alloc(), text)
            == Ok(Some((
                2,
                [[2, 0, 0], [0, 1, 0], [0, 0, 1]],
                1,
                [0, 0, 0],
                1,
                [0, 0]
            )))
    );
    assert!(rt; subgroup_read(rt.alloc(), "x,y,z\n") == Ok(None));
}

// Appends the triplets of generators, one a line.
fn push_generators(alloc: Global, text: &mut Vec<u8>, lines: &[GenLine]) -> Result<(), Fail> {
    for line in lines {
        let triplet = print_triplet(alloc, &line.op)?;
        text.extend_from_slice(&triplet)?;
        text.push(b'\n')?;
    }
    Ok(())
}

// Appends three fractions over one denominator, with a blank before each.
fn push_row(alloc: Global, text: &mut Vec<u8>, row: [i64; 3], den: u32) -> Result<(), Fail> {
    let [x, y, z] = row;
    text.extend_from_slice(format!(in alloc; " {x}/{den} {y}/{den} {z}/{den}")?.as_bytes())?;
    Ok(())
}

// The lines of the generators of an input, and those of its subgroup's section.
fn printed(alloc: Global, input: &Input<Dense>) -> Result<Vec<u8>, Fail> {
    let mut text = Vec::new(alloc);
    push_generators(alloc, &mut text, &input.gens)?;
    if let Some(sub) = &input.sub {
        let setting = sub.setting;
        let [first, second, third] = setting.num;
        let shift = setting.shift;
        let origin = shift.num;
        text.extend_from_slice(b"subgroup\nbasis")?;
        push_row(alloc, &mut text, first, setting.den)?;
        push_row(alloc, &mut text, second, setting.den)?;
        push_row(alloc, &mut text, third, setting.den)?;
        text.extend_from_slice(b"\norigin")?;
        push_row(alloc, &mut text, origin, shift.den)?;
        text.push(b'\n')?;
        push_generators(alloc, &mut text, &sub.gens)?;
    }
    Ok(text)
}

#[test]
fn a_printed_section_is_read_back(rt: HostRuntime) -> Result<(), Fail> {
    let given =
        "'X + 1/2, y,z'\n-y,x,z\n# c\nsubgroup\nbasis 1/2 2/4 0 -1/2 1/2 0 0 0 2\n origin 1/4 0 -1/8\nx,y,-1z\n";
    let text =
        "x+1/2,y,z\n-y,x,z\nsubgroup\nbasis 1/2 1/2 0/2 -1/2 1/2 0/2 0/2 0/2 4/2\norigin 2/8 0/8 -1/8\nx,y,-z\n";
    for input in [given, text] {
        match read_input::<Dense>(rt.alloc(), input.as_bytes()) {
            Ok(read) => {
                let again = printed(rt.alloc(), &read)?;
                assert!(rt; again.as_slice() == text.as_bytes(), "at {input}");
            }
            Err(_) => assert!(rt; false, "at {input}"),
        }
    }
    assert!(rt; input_read(rt.alloc(), text) == Ok(([1, 2, 0], 0, 6)));
    assert!(rt;
        subgroup_read(rt.alloc(), text)
            == Ok(Some((
                4,
                [[1, 1, 0], [-1, 1, 0], [0, 0, 4]],
                2,
                [2, 0, -1],
                8,
                [6, 0]
            )))
    );
    Ok(())
}

#[test]
fn a_report_stands_behind_a_subgroup(rt: HostRuntime) {
    let text =
        "x,y,z\nsubgroup\nbasis 1 0 0 0 1 0 0 0 1\norigin 0 0 0\nx,y,z\nreport 1\nwave 0,0,0\norder 1\nops 1\nop 1 x,y,z\nreps 1\nrep S1 dim 1\nchar 1\nmat 1 1\nend\n";
    assert!(rt; input_read(rt.alloc(), text) == Ok(([1, 0, 0], 1, 15)));
    assert!(rt;
        subgroup_read(rt.alloc(), text)
            == Ok(Some((
                3,
                [[1, 0, 0], [0, 1, 0], [0, 0, 1]],
                1,
                [0, 0, 0],
                1,
                [5, 0]
            )))
    );
}

#[test]
fn a_line_of_another_sort_is_faulty_at_its_first_byte(rt: HostRuntime) {
    for (text, line) in [
        ("basis 1 0 0 0 1 0 0 0 1\n", 1),
        ("x,y,z\n  origin x\n", 2),
        ("subgroup\nx,y,z\n", 2),
        ("subgroup\n#\nx,y\n", 3),
        ("subgroup\nsubgroup\n", 2),
        ("subgroup\nsubgroup x\n", 2),
        ("subgroup\norigin 0 0 0\n", 2),
        ("subgroup\nreport 1\n", 2),
        ("subgroup\nbasis,1\n", 2),
        ("subgroup\nbasis 1 0 0 0 1 0 0 0 1\nx,y,z\n", 3),
        ("subgroup\nbasis 1 0 0 0 1 0 0 0 1\nreport 1\n", 3),
        ("subgroup\nbasis 1 0 0 0 1 0 0 0 1\nbasis 1\n", 3),
        (
            "subgroup\nbasis 1 0 0 0 1 0 0 0 1\norigin 0 0 0\nsubgroup\n",
            4,
        ),
        (
            "subgroup\nbasis 1 0 0 0 1 0 0 0 1\norigin 0 0 0\nx,y,z\nbasis 1\n",
            5,
        ),
    ] {
        let reason = Reason::Shape(0);
        assert!(rt;
            input_read(rt.alloc(), text) == Err(InputError::Bad { line, reason }),
            "at {text}"
        );
    }
}

#[test]
fn lines_of_a_subgroup_are_faulty_at_their_places(rt: HostRuntime) {
    for (text, line, reason) in [
        ("subgroup x\n", 1, Reason::Shape(9)),
        ("x,y,z\n  subgroup\t\tbasis\n", 2, Reason::Shape(12)),
        ("subgroup\nbasis 1 0 0 0 1 0 0 0\n", 2, Reason::Shape(21)),
        ("subgroup\nbasis 1/0 0 0 0 1 0 0 0 1\n", 2, Reason::Zero(8)),
        ("subgroup\nbasis 101 0 0 0 1 0 0 0 1\n", 2, Reason::Range(6)),
        (
            "subgroup\nbasis 1/3 0 0 0 1/5 0 0 0 1/7\n",
            2,
            Reason::Range(29),
        ),
        (
            "subgroup\nbasis 1 0 0 0 1 0 0 0 1\norigin 0 0 1001\n",
            3,
            Reason::Range(11),
        ),
        (
            "subgroup\nbasis 1 0 0 0 1 0 0 0 1\norigin 0 0 0\nx,y\n",
            4,
            Reason::Shape(3),
        ),
        (
            "subgroup\nbasis 1 0 0 0 1 0 0 0 1\norigin 0 0 0\nreport 1\n",
            5,
            Reason::Report,
        ),
    ] {
        assert!(rt;
            input_read(rt.alloc(), text) == Err(InputError::Bad { line, reason }),
            "at {text}"
        );
    }
}

#[test]
fn a_basis_or_an_origin_may_be_missing(rt: HostRuntime) {
    for (text, line) in [
        ("subgroup", 2),
        ("x,y,z\nsubgroup\n", 3),
        ("x,y,z\nsubgroup\n\n#", 5),
        ("subgroup\nbasis 1 0 0 0 1 0 0 0 1\n", 3),
        ("subgroup\nbasis 1 0 0 0 1 0 0 0 1\n \n\n", 5),
    ] {
        let reason = Reason::Missing;
        assert!(rt;
            input_read(rt.alloc(), text) == Err(InputError::Bad { line, reason }),
            "at {text}"
        );
    }
}

#[test]
fn the_first_line_past_a_limit_is_named(rt: HostRuntime) {
    let text = "x,y,z\nreport 1\nwave 0,0,0\norder 12001\nops 1\nop 1 x,y,z\n";
    assert!(rt; input_read(rt.alloc(), text) == Err(InputError::ReportRange { line: 4 }));
}
