//! Texts that are checked.

use super::call;
use crate::Status;
use std::test::Fail;

/// Texts of one line, and what is reported of each.
const TEXTS: &str = "int main(void){return x;} => rejected unknown 1 23
int f(void);int main(void){return f();} => rejected unknown 1 35
int main(void){char *p=zz; return 0;} => rejected unknown 1 24
void f(char *p){} int main(void){f(zz); return 0;} => rejected unknown 1 36
char *f(void){return zz;} int main(void){return 0;} => rejected unknown 1 22
int main(void){int **p; int **q=p+zz; return 0;} => rejected unknown 1 35
void f(char *p){} int main(void){f(zz,1); return 0;} => rejected arguments 1 34
int main(void){int a[2]=zz; return 0;} => rejected bad-type 1 20
int main(void){int a[n];int n;return 0;} => rejected unknown 1 22
int main(void){int n[n];return 0;} => rejected unknown 1 22
int main(void){Post(1,a,4);return 0;} => rejected unknown 1 23
int a;int a;int main(void){return 0;} => rejected twice 1 11
int f(int a){int a;return a;}int main(void){return f(1);} => rejected twice 1 18
int f(void){return 0;}int f;int main(void){return 0;} => rejected twice 1 27
int f(void){return 0;}int f(void){return 1;}int main(void){return 0;} => rejected twice 1 27
int f(int a);char f(int a);int main(void){return 0;} => rejected bad-type 1 19
int main(void){int *p;p=1;return 0;} => rejected bad-type 1 24
int main(void){break;} => rejected bad-type 1 16
void f(void){return 1;}int main(void){return 0;} => rejected bad-type 1 14
int f(void){return;}int main(void){return 0;} => rejected bad-type 1 13
int main(void){1=2;return 0;} => rejected bad-type 1 17
int main(void){int a[0];return 0;} => rejected bad-type 1 20
int p[2]={1,2,3};int main(void){return 0;} => rejected bad-type 1 5
int *p=1;int main(void){return 0;} => rejected bad-type 1 6
int g=1/0;int main(void){return 0;} => rejected bad-type 1 8
int h;int g=h;int main(void){return 0;} => rejected bad-type 1 13
int main(void){int a={1};return 0;} => rejected bad-type 1 20
void f(void){}int main(void){return f();} => rejected bad-type 1 37
int f(int a){return a;}int main(void){return f();} => rejected arguments 1 46
int f(int){return 0;}int main(void){return 0;} => rejected arguments 1 7
int main(void){EndPPR(3);return 0;} => rejected marker 1 16
int main(void){BeginPPR(1);EndPPR(1);BeginPPR(1);return 0;} => rejected marker 1 38
int main(void){BeginPPR(1);{EndPPR(1);}return 0;} => rejected marker 1 16
int main(void){EndPPR(1);BeginPPR(1);return 0;} => rejected marker 1 16
int main(void){BeginPPR(256);EndPPR(256);return 0;} => rejected marker 1 16
int main(void){Wait(64);return 0;} => rejected marker 1 16
int main(void){int a;Post(1,a,4);return 0;} => rejected marker 1 22
int main(void){int *p;unsigned n;Post(1,p,n);return 0;} => rejected marker 1 34
int f(void){return 0;} => rejected no-main 1 1
int main(int a){return a;} => rejected no-main 1 1
char main(void){return 0;} => rejected no-main 1 1
int f(void){return x;} => rejected unknown 1 20
int f(int a,int b,int c,int d,int e,int g,int h,int i,int j){return 0;}int main(void){return 0;} => rejected too-many-parameters 1 5
int main(void){return x+(1=2);} => rejected unknown 1 23
int main(void){return (1=2)+x;} => rejected bad-type 1 25
int main(void){return 4294967296;} => rejected too-large 1 23
int main(void){/* => rejected open-comment 1 16
int main(void){return 09;} => rejected bad-literal 1 23
#x => rejected bad-line 1 1
int main(void){return \"x\";} => rejected bad-byte 1 23
int main(void){int a;a=;return 0;} => rejected unexpected 1 24
int main(void){char a[65525];a[0]=1;return 0;} => rejected frame-too-large 1 5
char a[2883585];int main(void){return 0;} => rejected data-too-large
char a[2883584];int main(void){return 0;} => fine
int main(void){char a[65520];a[0]=1;return 0;} => fine
int main(void){int a;{int a;a=1;}return a;} => fine
int f();int f(void){return 0;}int main(){return f();} => fine
unsigned char c;int main(void){return c;} => fine
int f(int a[]){return a[0];}int g[3];int main(void){return f(g);} => fine
int f(void);int main(void){return f();}int f(void){return 1;} => fine";

#[test]
fn each_text_has_its_status(rt: HostRuntime) -> Result<(), Fail> {
    let alloc = rt.alloc();
    for row in TEXTS.lines() {
        let (text, said) = row.split_once(" => ").ok_or("a row has two parts")?;
        let ended = call(alloc, &["check", "p.c"], text, &[], &[])?;
        let line = format!(in alloc; "status {said}\n")?;
        assert_eq!(rt; ended.report.content(), line.as_bytes(), "{text}");
        assert_eq!(rt; ended.output.content().len(), 0, "{text}");
    }
    Ok(())
}

/// Four sums, each in a region.
const SUMS: &str = "#include <stdio.h>
#include \"bop.h\"
#define N 4
int part[4096];
int work(int k){int s; int j; s=0; for(j=1;j<=100;j=j+1) s=s+j*k; return s;}
void print(int n){if(n>9) print(n/10); putchar('0'+n%10);}
int main(void){int i; for(i=0;i<N;i=i+1){BeginPPR(7); part[i*1024]=work(i); EndPPR(7);} for(i=0;i<N;i=i+1){print(part[i*1024]); putchar('\\n');} return 0;}
";

/// Each front of the text is at fault, but the whole with and without its last line end.
#[test]
fn a_front_of_a_text_is_at_fault(rt: HostRuntime) -> Result<(), Fail> {
    let alloc = rt.alloc();
    for end in 0..=SUMS.len() {
        let front = SUMS.get(..end).ok_or("a front of the text")?;
        let ended = call(alloc, &["check", "p.c"], front, &[], &[])?;
        if end + 1 < SUMS.len() {
            assert!(rt; matches!(ended.status, Status::Rejected(_)), "{end} bytes");
        } else {
            assert_eq!(rt; ended.status, Status::Fine, "{end} bytes");
        }
    }
    Ok(())
}

/// A text that is too long is not read, whatever the command is.
#[test]
fn a_longer_text_is_too_long(rt: HostRuntime) -> Result<(), Fail> {
    let alloc = rt.alloc();
    let mut text = String::new(alloc);
    for _ in 0..1_048_576 {
        text.push_str(" ")?;
    }
    let ended = call(alloc, &["check", "p.c"], &text, &[], &[])?;
    assert_eq!(rt;
        ended.report.content(),
        b"status rejected no-main 1 1\n".as_slice()
    );
    text.push_str(" ")?;
    for command in ["check", "seq"] {
        let ended = call(alloc, &[command, "p.c"], &text, &[], &[])?;
        assert_eq!(rt; ended.status, Status::ProgramTooLong);
        assert_eq!(rt;
            ended.report.content(),
            b"status program-too-long\n".as_slice()
        );
    }
    Ok(())
}

/// A report that fails is a fault of an answer alone.
#[test]
fn a_check_is_reported(rt: HostRuntime) -> Result<(), Fail> {
    let alloc = rt.alloc();
    let fine = "int main(void){return 0;}";
    let ended = call(alloc, &["check", "p.c"], fine, &[], &[(0, 7)])?;
    assert_eq!(rt; ended.status, Status::ReportFault);
    assert_eq!(rt; ended.report.content(), b"status ".as_slice());
    let ended = call(alloc, &["check", "p.c"], "", &[], &[(0, 0)])?;
    assert!(rt; matches!(ended.status, Status::Rejected(_)));
    let ended = call(alloc, &["check", "other.c"], fine, &[], &[])?;
    assert_eq!(rt; ended.report.content(), b"status load-fault\n".as_slice());
    Ok(())
}
