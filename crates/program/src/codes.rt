// What a byte stands for: an atom, a mutation's kind, the code of an expression or of a statement. A byte that is none of
// them is an `UnknownCode`, and whoever reads it leaves with document 01's number.
ghost use Rattle.std.specs.Prelude.{◌≡◌};
ghost use Rattle.program.specs.Codes.{atom_of, role_below, kind_of, operand_bound, expression_of, statement_of};

// A byte that stands for nothing.
#[derive(Clone, Copy, Debug, PartialEq, Eq)]
pub struct UnknownCode;

// 00–3F a role; 40–7F the viewers of a role; 80–BF the trusters of a role; FF everyone.
#[derive(Clone, Copy, Debug, PartialEq, Eq)]
pub enum Atom {
    Role(u8),
    Viewers(u8),
    Trusters(u8),
    Everyone,
}

impl TryFrom<u8> for Atom {
    type Error = UnknownCode;

    ghost try_from_gives = { λ b r. r ≡ atom_of b };

    #[tactic(auto, using(crate::proofs::CodeLaws::atoms))]
    fn try_from(b: u8) -> Result<Self, UnknownCode> {
        match b {
            0..=0x3f => Ok(Atom::Role(b)),
            0x40..=0x7f => Ok(Atom::Viewers(b - 0x40)),
            0x80..=0xbf => Ok(Atom::Trusters(b - 0x80)),
            0xff => Ok(Atom::Everyone),
            _ => Err(UnknownCode),
        }
    }
}

impl Atom {
    // Whether the role that the atom names is below R; everyone names none.
    #[tactic(auto, unfolding(crate::specs::Codes::role_below))]
    pub fn is_below(self, roles: u8) -> bool
        ensures { result ≡ role_below roles self }
    {
        match self {
            Atom::Role(j) => j < roles,
            Atom::Viewers(j) => j < roles,
            Atom::Trusters(j) => j < roles,
            Atom::Everyone => true,
        }
    }
}

// 00 add and 01 delete a member, 02 add and 03 delete a taken role.
#[derive(Clone, Copy, Debug, PartialEq, Eq)]
pub enum Kind {
    AddMember,
    DeleteMember,
    AddTaken,
    DeleteTaken,
}

impl TryFrom<u8> for Kind {
    type Error = UnknownCode;

    ghost try_from_gives = { λ b r. r ≡ kind_of b };

    #[tactic(auto, unfolding(crate::specs::Codes::kind_of))]
    fn try_from(b: u8) -> Result<Self, UnknownCode> {
        match b {
            0 => Ok(Kind::AddMember),
            1 => Ok(Kind::DeleteMember),
            2 => Ok(Kind::AddTaken),
            3 => Ok(Kind::DeleteTaken),
            _ => Err(UnknownCode),
        }
    }
}

impl Kind {
    // What a mutation's operand stays below: a member is a principal, what is taken is a role.
    #[tactic(auto, unfolding(crate::specs::Codes::operand_bound))]
    pub fn operand_bound(self, principals: u8, roles: u8) -> u8
        ensures { result ≡ operand_bound principals roles self }
    {
        match self {
            Kind::AddMember | Kind::DeleteMember => principals,
            Kind::AddTaken | Kind::DeleteTaken => roles,
        }
    }
}

#[derive(Clone, Copy, Debug, PartialEq, Eq)]
pub enum Operator {
    Sum,
    Difference,
    Product,
    Quotient,
    Less,
    Equal,
}

// 00 a constant, 01 a variable, 02 to 07 an operator of two expressions.
#[derive(Clone, Copy, Debug, PartialEq, Eq)]
pub enum Expression {
    Constant,
    Variable,
    Binary(Operator),
}

impl TryFrom<u8> for Expression {
    type Error = UnknownCode;

    ghost try_from_gives = { λ b r. r ≡ expression_of b };

    #[tactic(auto, unfolding(crate::specs::Codes::expression_of))]
    fn try_from(b: u8) -> Result<Self, UnknownCode> {
        match b {
            0 => Ok(Expression::Constant),
            1 => Ok(Expression::Variable),
            2 => Ok(Expression::Binary(Operator::Sum)),
            3 => Ok(Expression::Binary(Operator::Difference)),
            4 => Ok(Expression::Binary(Operator::Product)),
            5 => Ok(Expression::Binary(Operator::Quotient)),
            6 => Ok(Expression::Binary(Operator::Less)),
            7 => Ok(Expression::Binary(Operator::Equal)),
            _ => Err(UnknownCode),
        }
    }
}

// 00 skip, 01 assign, 02 block, 03 if, 04 while, 05 query, 06 update, 07 transaction.
#[derive(Clone, Copy, Debug, PartialEq, Eq)]
pub enum Statement {
    Skip,
    Assign,
    Block,
    If,
    While,
    Query,
    Update,
    Transaction,
}

impl TryFrom<u8> for Statement {
    type Error = UnknownCode;

    ghost try_from_gives = { λ b r. r ≡ statement_of b };

    #[tactic(auto, unfolding(crate::specs::Codes::statement_of))]
    fn try_from(b: u8) -> Result<Self, UnknownCode> {
        match b {
            0 => Ok(Statement::Skip),
            1 => Ok(Statement::Assign),
            2 => Ok(Statement::Block),
            3 => Ok(Statement::If),
            4 => Ok(Statement::While),
            5 => Ok(Statement::Query),
            6 => Ok(Statement::Update),
            7 => Ok(Statement::Transaction),
            _ => Err(UnknownCode),
        }
    }
}
