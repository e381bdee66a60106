//! Whole programs.

use super::with_lines;
use c_token::{Kind, tokens};
use std::test::Fail;

/// Programs, and the number of their tokens.
const PROGRAMS: &str = "int main(void){putchar('A');return 0;} => 16
int main(void){} => 8
int main(void){int c; while((c=getchar())!=EOF) putchar(c); return 0;} => 31
int main(void){if(4294967295u+1u==0u) putchar('0'); else putchar('1'); return 0;} => 30
int main(void){int a; int b; a=-2147483647-1; b=-1; putchar(a/b==a?'Y':'N'); return 0;} => 42
int a[4096]; int main(void){int i; int j; for(i=0;i<4;i=i+1){BeginPPR(1); for(j=0;j<1024;j=j+1) a[i*1024+j]=i+j; EndPPR(1);} putchar('0'+a[0]); putchar('0'+a[1025]); putchar('0'+a[2050]); putchar('0'+a[3075]); return 0;} => 120
int sum; int main(void){int i; for(i=0;i<3;i=i+1){BeginPPR(1); sum=sum+i; EndPPR(1);} putchar('0'+sum); return 0;} => 58
BOP_CHECKED int flag; int a[3072]; int main(void){int i; for(i=0;i<3;i=i+1){BeginPPR(1); if(flag==0){flag=1; a[i*1024]=7; flag=0;} EndPPR(1);} putchar('0'+a[0]+a[1024]+a[2048]); return 0;} => 97
BOP_PRIVATE int buf[4]; int a[3072]; int main(void){int i; int j; for(i=0;i<3;i=i+1){BeginPPR(1); for(j=0;j<4;j=j+1) buf[j]=i+j; a[i*1024]=buf[0]+buf[3]; EndPPR(1);} for(i=0;i<3;i=i+1) putchar('0'+a[i*1024]); return 0;} => 128
int sum[1]; int main(void){int i; for(i=0;i<3;i=i+1){BeginPPR(1); Wait(0); sum[0]=sum[0]+i; Post(0,sum,4); EndPPR(1);} putchar('0'+sum[0]); return 0;} => 84
int sum[1]; int main(void){int i; for(i=0;i<3;i=i+1){BeginPPR(1); Wait(0); sum[0]=sum[0]+i; Post(0,sum,4); sum[0]=sum[0]+1; EndPPR(1);} putchar('0'+sum[0]); return 0;} => 96
int main(void){int i; for(i=0;i<3;i=i+1){BeginPPR(1); if(i==0) break; putchar('x'); EndPPR(1);} putchar('y'); return 0;} => 60
int main(void){while(1) putchar('x');} => 17
int f(int n){putchar('r'); return f(n+1)+1;} int main(void){return f(0);} => 37
int main(void){int i; for(i=0;i<10000;i=i+1) putchar('x'); return 0;} => 35
int main(void){int *p; p=0; *p=1; return 0;} => 24
int main(void){EndPPR(3);return 0;} => 16
int main(void){int *p; Post(5,p,64); Wait(9); putchar('k'); return 0;} => 34
#include <stdio.h>¶#include \"bop.h\"¶#define N 4¶int part[4096];¶int work(int k){int s; int j; s=0; for(j=1;j<=100;j=j+1) s=s+j*k; return s;}¶void print(int n){if(n>9) print(n/10); putchar('0'+n%10);}¶int main(void){int i; for(i=0;i<N;i=i+1){BeginPPR(7); part[i*1024]=work(i); EndPPR(7);} for(i=0;i<N;i=i+1){print(part[i*1024]); putchar('\\n');} return 0;}¶ => 168";

#[test]
fn programs_are_read(rt: HostRuntime) -> Result<(), Fail> {
    let alloc = rt.alloc();
    let mut count = 0u32;
    for line in PROGRAMS.lines() {
        let (text, want) = line.split_once(" => ").ok_or("a line without an arrow")?;
        let text = with_lines(alloc, text)?;
        assert!(rt; text.len() <= 1048576);
        let found = tokens(alloc, text.as_bytes())?.len();
        assert_eq!(rt; format!(in alloc; "{found}")?.as_str(), want, "at {text}");
        count = count.saturating_add(1);
    }
    assert_eq!(rt; count, 19);
    Ok(())
}

/// 65,536 lines of 16 bytes and six tokens.
#[test]
fn a_text_of_the_greatest_length(rt: HostRuntime) -> Result<(), Fail> {
    let alloc = rt.alloc();
    let mut text = Vec::new(alloc);
    for _ in 0..65536 {
        text.extend_from_slice(b"a += b * 10; //\n".as_slice())?;
    }
    assert_eq!(rt; text.len(), 1048576);
    let tokens = tokens(alloc, text.as_slice())?;
    assert_eq!(rt; tokens.len(), 393217);
    let end = &tokens[393216];
    assert!(rt; matches!(end.kind, Kind::End));
    assert_eq!(rt; end.place.line, 65537);
    assert_eq!(rt; end.place.column, 1);
    Ok(())
}

/// A name of 1,048,576 letters.
#[test]
fn a_token_of_the_greatest_length(rt: HostRuntime) -> Result<(), Fail> {
    let alloc = rt.alloc();
    let text = vec![in alloc; b'a'; 1048576]?;
    assert_eq!(rt; text.len(), 1048576);
    assert_eq!(rt; tokens(alloc, text.as_slice())?.len(), 2);
    Ok(())
}
