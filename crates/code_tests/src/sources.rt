//! The text of a made source.
use std::test::Fail;
use work_maker::{MOST_FUNCTIONS, make_source};

#[test]
fn makes_sources(rt: HostRuntime) -> Result<(), Fail> {
    let one = make_source(rt.alloc(), 1)?;
    let text = "int a[256];\n__logged int g[64];\n\
        int f0(int x){a[x&255]=a[x&255]+1;g[0]=g[0]^x;return a[(x+0)&255];}\n\
        int main(void){int i;int s;for(i=0;i<16;i=i+1){\ns=f0(s+i);\nrelease(s);}check();return 0;}\n";
    assert_eq!(rt; one.as_slice(), text.as_bytes());
    let most = make_source(rt.alloc(), MOST_FUNCTIONS)?;
    assert_eq!(rt; most.len(), 4_132);
    Ok(())
}
