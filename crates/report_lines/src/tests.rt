use crate::{push_led_line, push_line, push_refusal};
use engine_face::Refusal;
use std::alloc::Global;
use std::test::Fail;
use tri_base::{LexCause, Name, NoMemory, Text, TypeCause, TypeFault};

#[test]
fn lines_are_words_and_numbers(rt: HostRuntime) -> Result<(), Fail> {
    let mut text = Text::new(rt.alloc());
    push_line(&mut text, b"OUT", &[0, 9, 10, -32768])?;
    push_led_line(&mut text, b"IN", 100, &[-1])?;
    push_line(&mut text, b"END", &[])?;
    assert_eq!(rt;
        text.bytes(),
        b"OUT 0 9 10 -32768\nIN 100 -1\nEND\n".as_slice()
    );
    Ok(())
}

#[test]
fn refusals_are_told(rt: HostRuntime) -> Result<(), Fail> {
    let name = Name::read(b"pump").ok_or("pump")?;
    let lex = Refusal::Lex {
        place: 12,
        cause: LexCause::OpenComment,
    };
    let typing = Refusal::Typing(TypeFault {
        place: 0,
        cause: TypeCause::WrongType,
    });
    let most = Refusal::TooManyWords { words: usize::MAX };
    assert_eq!(rt;
        told(rt.alloc(), &lex)?.bytes(),
        b"LEX 12 OPENCOMMENT".as_slice()
    );
    assert_eq!(rt;
        told(rt.alloc(), &typing)?.bytes(),
        b"TYPING 0 WRONGTYPE".as_slice()
    );
    assert_eq!(rt;
        told(rt.alloc(), &most)?.bytes(),
        b"WORDS 18446744073709551615".as_slice()
    );
    let kind = Refusal::KindChanged(name);
    assert_eq!(rt; told(rt.alloc(), &kind)?.bytes(), b"KIND PUMP".as_slice());
    Ok(())
}

fn told(alloc: Global, refusal: &Refusal) -> Result<Text, NoMemory> {
    let mut text = Text::new(alloc);
    push_refusal(&mut text, refusal)?;
    Ok(text)
}
