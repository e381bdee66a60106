//! Reserved words of declarations and statements (C11 6.4.1), and those that this compiler adds.

pub(crate) const VOID: &str = "void";

pub(crate) const IF: &str = "if";

pub(crate) const ELSE: &str = "else";

pub(crate) const WHILE: &str = "while";

pub(crate) const DO: &str = "do";

pub(crate) const FOR: &str = "for";

pub(crate) const RETURN: &str = "return";

pub(crate) const BREAK: &str = "break";

pub(crate) const CONTINUE: &str = "continue";

pub(crate) const BOP_CHECKED: &str = "BOP_CHECKED";

pub(crate) const BOP_PRIVATE: &str = "BOP_PRIVATE";

pub(crate) const BEGIN_PPR: &str = "BeginPPR";

pub(crate) const END_PPR: &str = "EndPPR";

pub(crate) const WAIT: &str = "Wait";

pub(crate) const POST: &str = "Post";
