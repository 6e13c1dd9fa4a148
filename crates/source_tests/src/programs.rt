//! A program of each production, and one of as many tokens as a text of the largest size may have.
use aegis_num::limits::MAX_SOURCE_BYTES;
use c_reader::{SyntaxError, read_program};
use c_token::{Kind, Sign, Token, tokens};
use std::alloc::Global;
use std::process::Abort;
use std::test::Fail;

/// How many items the program of these tokens has, or why they are none.
fn outcome(rt: &impl Abort, alloc: Global, tokens: &[Token]) -> Result<usize, SyntaxError> {
    assert!(rt; tokens.len() as u64 <= MAX_SOURCE_BYTES);
    Ok(read_program(alloc, tokens)?.items.len())
}

/// How many items the program of a text has, or why it is none.
fn outcome_of(
    rt: &impl Abort,
    alloc: Global,
    text: &str,
) -> Result<Result<usize, SyntaxError>, Fail> {
    let text = text.as_bytes();
    assert!(rt; text.len() as u64 <= MAX_SOURCE_BYTES);
    let tokens = tokens(alloc, text)?;
    Ok(outcome(rt, alloc, tokens.as_slice()))
}

/// A text of each production.
#[test]
fn reads_each_production(rt: HostRuntime) -> Result<(), Fail> {
    let text =
        "int x;unsigned y;__verified unsigned int z;__private int p[3];__shared int s;__logged int w[1u];
        const int k=1;const int l[2]={1,-2};__untrusted void f(void);
        __private int g(int a,unsigned b){int c;int d=a;{;}c=1;p[0]=-~!d;h();h(1,(2),x[3]);release(input());check();
            if(1||2&&3|4^5&6==7)return c;else if(1!=2<3>4<=5>=6<<7>>8+9-10*11/12%13)return;
            while(1){break;continue;}for(;;);for(int i=0;i<3;i=i+1);for(check();1;release(2))a[0]=1;}
        void h(){}unsigned int main(void){release(0x48);/* i */release(105u);return 0;}";
    assert_eq!(rt; outcome_of(&rt, rt.alloc(), text)?, Ok(12));
    assert_eq!(rt; outcome_of(&rt, rt.alloc(), "")?, Ok(0));
    Ok(())
}

/// As many tokens as a text of the largest size may have.
#[test]
fn reads_the_most_tokens(rt: HostRuntime) -> Result<(), Fail> {
    let mut kinds = Vec::from_slice(rt.alloc(), tokens(rt.alloc(), b"void f(){")?.as_slice())?;
    for _ in 0..MAX_SOURCE_BYTES - 6 {
        kinds.push(Token {
            kind: Kind::Sign(Sign::Semicolon),
            at: 0,
        })?;
    }
    kinds.push(Token {
        kind: Kind::Sign(Sign::RightBrace),
        at: 0,
    })?;
    assert_eq!(rt; kinds.len() as u64, MAX_SOURCE_BYTES);
    assert_eq!(rt; outcome(&rt, rt.alloc(), kinds.as_slice()), Ok(1));
    Ok(())
}
