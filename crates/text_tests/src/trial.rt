// The text of a trial of two pairs, of which the first goes on and the second ends.
use std::test::Fail;
use trial_text::trial_text;

fn two_pairs() -> &'static [u8] {
    b".typedef @i1 = int < 1 > .typedef @i64 = int < 64 > .funcsig @m = ( ) -> ( ) .const @on < @i1 > = 1 .const \
        @k0 < @i64 > = 0 .global @d0 < @i64 > .global @f0 < @i1 > .const @k1 < @i64 > = 1 .global @d1 < @i64 > \
        .global @f1 < @i1 > .funcdef @main VERSION %v < @m > { %e ( ) : %s = COMMINST @uvm.new_stack < [ @m ] > ( \
        @use ) %t = NEWTHREAD %s PASS_VALUES < > ( ) STORE NOT_ATOMIC < @i64 > @d0 @k0 STORE RELEASE < @i1 > @f0 @on \
        STORE NOT_ATOMIC < @i64 > @d1 @k1 STORE RELEASE < @i1 > @f1 @on RET ( ) } .funcdef @use VERSION %v < @m > { \
        %a0 ( ) : %x = LOAD ACQUIRE < @i1 > @f0 BRANCH2 %x %b0 ( ) %z ( ) %b0 ( ) : %y = LOAD NOT_ATOMIC < @i64 > @d0 \
        BRANCH %a1 ( ) %a1 ( ) : %x = LOAD ACQUIRE < @i1 > @f1 BRANCH2 %x %b1 ( ) %z ( ) %b1 ( ) : %y = LOAD \
        NOT_ATOMIC < @i64 > @d1 BRANCH %z ( ) %z ( ) : RET ( ) } "
}

#[test]
fn two_pairs_are_written(rt: HostRuntime) -> Result<(), Fail> {
    let text = trial_text(rt.alloc(), 2)?;
    assert_eq!(rt; text.as_slice(), two_pairs());
    Ok(())
}
