// A small bundle is read.
use ir_text::read_bundle;
use ir_tree::{Item, TypeForm};
use std::test::Fail;

#[test]
fn reads_a_small_bundle(rt: HostRuntime) -> Result<(), Fail> {
    let bundle = read_bundle(
        rt.alloc(),
        b".typedef @a=int<012>.typedef @h = hybrid<@a @b @a> .const @c <@a> = {} .global @g <@a>",
    )?;
    assert_eq!(rt; bundle.len(), 4);
    let element = match bundle.as_slice() {
        [_, Item::Typedef(typedef), ..] => match &typedef.form {
            TypeForm::Hybrid { fixed, element } => Some((fixed.len(), element.place)),
            _ => None,
        },
        _ => None,
    };
    assert_eq!(rt; element, Some((2, 47)));
    Ok(())
}
