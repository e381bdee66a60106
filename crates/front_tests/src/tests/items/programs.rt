//! Whole programs are read.

use super::read;
use std::test::Fail;

const PROGRAMS: &str = "\
int main(void){putchar('A');return 0;}
int main(void){}
int main(void){int c; while((c=getchar())!=EOF) putchar(c); return 0;}
int main(void){if(4294967295u+1u==0u) putchar('0'); else putchar('1'); return 0;}
int main(void){int a; int b; a=-2147483647-1; b=-1; putchar(a/b==a?'Y':'N'); return 0;}
int a[4096]; int main(void){int i; int j; for(i=0;i<4;i=i+1){BeginPPR(1); for(j=0;j<1024;j=j+1) a[i*1024+j]=i+j; EndPPR(1);} putchar('0'+a[0]); putchar('0'+a[1025]); putchar('0'+a[2050]); putchar('0'+a[3075]); return 0;}
int sum; int main(void){int i; for(i=0;i<3;i=i+1){BeginPPR(1); sum=sum+i; EndPPR(1);} putchar('0'+sum); return 0;}
BOP_CHECKED int flag; int a[3072]; int main(void){int i; for(i=0;i<3;i=i+1){BeginPPR(1); if(flag==0){flag=1; a[i*1024]=7; flag=0;} EndPPR(1);} putchar('0'+a[0]+a[1024]+a[2048]); return 0;}
BOP_PRIVATE int buf[4]; int a[3072]; int main(void){int i; int j; for(i=0;i<3;i=i+1){BeginPPR(1); for(j=0;j<4;j=j+1) buf[j]=i+j; a[i*1024]=buf[0]+buf[3]; EndPPR(1);} for(i=0;i<3;i=i+1) putchar('0'+a[i*1024]); return 0;}
int sum[1]; int main(void){int i; for(i=0;i<3;i=i+1){BeginPPR(1); Wait(0); sum[0]=sum[0]+i; Post(0,sum,4); EndPPR(1);} putchar('0'+sum[0]); return 0;}
int sum[1]; int main(void){int i; for(i=0;i<3;i=i+1){BeginPPR(1); Wait(0); sum[0]=sum[0]+i; Post(0,sum,4); sum[0]=sum[0]+1; EndPPR(1);} putchar('0'+sum[0]); return 0;}
int main(void){int i; for(i=0;i<3;i=i+1){BeginPPR(1); if(i==0) break; putchar('x'); EndPPR(1);} putchar('y'); return 0;}
int main(void){while(1) putchar('x');}
int f(int n){putchar('r'); return f(n+1)+1;} int main(void){return f(0);}
int main(void){int i; for(i=0;i<10000;i=i+1) putchar('x'); return 0;}
int main(void){int *p; p=0; *p=1; return 0;}
int main(void){EndPPR(3);return 0;}
int main(void){int *p; Post(5,p,64); Wait(9); putchar('k'); return 0;}
#include <stdio.h>¶#include \"bop.h\"¶#define N 4¶int part[4096];¶int work(int k){int s; int j; s=0; for(j=1;j<=100;j=j+1) s=s+j*k; return s;}¶void print(int n){if(n>9) print(n/10); putchar('0'+n%10);}¶int main(void){int i; for(i=0;i<N;i=i+1){BeginPPR(7); part[i*1024]=work(i); EndPPR(7);} for(i=0;i<N;i=i+1){print(part[i*1024]); putchar('\\n');} return 0;}";

#[test]
fn programs_are_read(rt: HostRuntime) -> Result<(), Fail> {
    let mut count = 0u32;
    let mut items = 0u64;
    for line in PROGRAMS.lines() {
        let text = line.replace(rt.alloc(), "¶", "\n")?;
        match read(&rt, rt.alloc(), text.as_str())? {
            Ok(tree) => items = items.saturating_add(tree.items.len() as u64),
            Err(_) => return Err("a program that is not read")?,
        }
        count = count.saturating_add(1);
    }
    assert_eq!(rt; count, 19);
    assert_eq!(rt; items, 31);
    Ok(())
}
