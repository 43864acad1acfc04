//! The forms of nodes.

ghost use Rattle.std.specs.Prelude.{◌≡◌};
ghost use Rattle.sml_tree.specs.Parts.{parts_of};

use crate::status::Status;
use smlc_base::Name;

/// A node of the parse tree. Its parts stand before it, each with its own parts, in the order of the text.
///
/// A list of the grammar, as `exp {, exp}`, is its item where there is one, else the item and the rest of the list.
#[derive(Clone, Copy)]
pub enum TreeNode {
    /// `val [tyvars] valbind`: type variables, value bindings.
    Val,
    /// `fun [tyvars] fvalbind {and fvalbind}`: type variables, function bindings.
    Fun,
    /// `type typbind {and typbind}`: type bindings.
    Type,
    /// `datatype datbind {and datbind}`: datatype bindings.
    Datatype,
    /// `exception exbind {and exbind}`: exception bindings.
    Exception,
    /// `local decs in decs end`: both sequences of declarations.
    Local,
    /// `infix [d] vid {vid}`, `infixr [d] vid {vid}` or `nonfix vid {vid}`: the identifiers.
    Directive(Status),
    /// The end of a sequence of declarations.
    NoDecs,
    /// A declaration and those behind it.
    MoreDecs,
    /// An identifier of a directive and those behind it.
    MoreVids,
    /// No type variables are bound.
    NoTyVars,
    /// `( tyvar {, tyvar} )`: the type variables.
    TyVarSeq,
    /// A type variable and those behind it.
    MoreTyVars,
    /// `pat = exp`: pattern, expression.
    ValBind,
    /// `.. and valbind`: a binding and those behind it.
    MoreValBinds,
    /// `rec valbind`: the bindings.
    Rec,
    /// `.. and fvalbind`: the clauses of a function and the functions behind it.
    MoreFunBinds,
    /// `.. '|' clause`: a clause and those behind it.
    MoreClauses,
    /// `head = exp`: head, expression.
    Clause,
    /// `head : ty = exp`: head, type, expression.
    TypedClause,
    /// `[op] longvid atpat {atpat}`: identifier, atomic patterns.
    Head,
    /// `atpat vid atpat`: pattern, identifier, pattern.
    InfixHead,
    /// `( atpat vid atpat )`: pattern, identifier, pattern.
    ParenHead,
    /// `( atpat vid atpat ) atpat {atpat}`: pattern, identifier, pattern, atomic patterns.
    ParenHeadArgs,
    /// An atomic pattern and those behind it.
    MoreAtpats,
    /// `[tyvars] tycon = ty`: type variables, type constructor, type.
    TypBind,
    /// A type binding and those behind it.
    MoreTypBinds,
    /// `[tyvars] tycon = conbind {'|' conbind}`: type variables, type constructor, constructor bindings.
    DatBind,
    /// A datatype binding and those behind it.
    MoreDatBinds,
    /// `[op] vid`: a constructor without argument.
    ConBind,
    /// `[op] vid of ty`: identifier, type.
    ConBindOf,
    /// A constructor binding and those behind it.
    MoreConBinds,
    /// `[op] vid`: an exception without argument.
    ExBind,
    /// `[op] vid of ty`: identifier, type.
    ExBindOf,
    /// `[op] vid = [op] longvid`: the new identifier, the old one.
    ExBindIs,
    /// An exception binding and those behind it.
    MoreExBinds,
    /// A value identifier.
    Vid(Name),
    /// The value identifier `=`.
    VidEquals,
    /// A long value identifier.
    LongVid(Name),
    /// `op` and an identifier.
    Op,
    /// A type constructor.
    TyCon(Name),
    /// A long type constructor.
    LongTyCon(Name),
    /// A type variable.
    TyVar(Name),
    /// A label that is an identifier.
    Label(Name),
    /// A label that is a number.
    LabelNumber(i64),
    /// An integer constant.
    Int(i64),
    /// A character constant.
    Char(u8),
    /// A string constant, by its number.
    Text(u32),
    /// `exp handle match`: expression, match.
    Handle,
    /// `exp orelse exp`: left, right.
    Orelse,
    /// `exp andalso exp`: left, right.
    Andalso,
    /// `exp : ty`: expression, type.
    Typed,
    /// `raise exp`: the expression.
    Raise,
    /// `if exp then exp else exp`: the three expressions.
    If,
    /// `while exp do exp`: condition, body.
    While,
    /// `case exp of match`: expression, match.
    Case,
    /// `fn match`: the match.
    Fn,
    /// `infexp vid infexp`: left, identifier, right.
    InfixExp,
    /// `appexp atexp`: function, argument.
    Apply,
    /// `{ }`.
    EmptyRecord,
    /// `{ exprow }`: the rows.
    Record,
    /// `lab = exp`: label, expression.
    Row,
    /// A row and those behind it.
    MoreRows,
    /// `( )`.
    Unit,
    /// `( exp , exp {, exp} )`: the first expression, the others.
    Tuple,
    /// `( exp ; exp {; exp} )`: the first expression, the others.
    Sequence,
    /// `[ ]`.
    EmptyList,
    /// `[ exp {, exp} ]`: the expressions.
    List,
    /// An expression and those behind it, between commas.
    MoreItems,
    /// `let decs in exp {; exp} end`: declarations, expressions.
    Let,
    /// An expression and those behind it, between semicolons.
    MoreSeq,
    /// `( exp )`: the expression.
    Paren,
    /// `pat => exp`: pattern, expression.
    Rule,
    /// A rule and those behind it.
    MoreRules,
    /// `[op] vid as pat`: identifier, pattern.
    Layered,
    /// `[op] vid : ty as pat`: identifier, type, pattern.
    TypedLayered,
    /// `pat : ty`: pattern, type.
    TypedPat,
    /// `pat vid pat`: left, identifier, right.
    InfixPat,
    /// `[op] longvid atpat`: constructor, argument.
    ConPat,
    /// `_`.
    Wild,
    /// `{ }` as a pattern.
    PatEmptyRecord,
    /// `{ patrow {, patrow} }`: the rows.
    PatRecord,
    /// `( )` as a pattern.
    PatUnit,
    /// `( pat , pat {, pat} )`: the first pattern, the others.
    PatTuple,
    /// `[ ]` as a pattern.
    PatEmptyList,
    /// `[ pat {, pat} ]`: the patterns.
    PatList,
    /// `( pat )`: the pattern.
    PatParen,
    /// A pattern and those behind it.
    MorePats,
    /// `lab = pat`: label, pattern.
    PatRow,
    /// `vid` as a row: the identifier, a label too.
    PunRow,
    /// `vid : ty` as a row: identifier, type.
    TypedPunRow,
    /// `vid as pat` as a row: identifier, pattern.
    PunRowAs,
    /// `vid : ty as pat` as a row: identifier, type, pattern.
    TypedPunRowAs,
    /// A row of a pattern and those behind it.
    MorePatRows,
    /// `ty -> ty`: argument, result.
    ArrowTy,
    /// `ty * ty {* ty}`: the first type, the others.
    ProductTy,
    /// A factor of a product and those behind it.
    MoreFactors,
    /// `{ }` as a type.
    EmptyRecordTy,
    /// `{ lab : ty {, lab : ty} }`: the rows.
    RecordTy,
    /// `lab : ty`: label, type.
    TyRow,
    /// A row of a type and those behind it.
    MoreTyRows,
    /// `ty longtycon`: argument, type constructor.
    ConTy,
    /// `( ty , ty {, ty} ) longtycon`: the first argument, the others, type constructor.
    SeqConTy,
    /// `( ty )`: the type.
    ParenTy,
    /// A type and those behind it, between commas.
    MoreTys,
}

impl TreeNode {
    /// How many parts a node has.
    pub fn parts(self) -> u32
        ensures { result ≡ parts_of self }
    {
        match self {
            TreeNode::NoDecs
            | TreeNode::NoTyVars
            | TreeNode::Vid(_)
            | TreeNode::VidEquals
            | TreeNode::LongVid(_)
            | TreeNode::TyCon(_)
            | TreeNode::LongTyCon(_)
            | TreeNode::TyVar(_)
            | TreeNode::Label(_)
            | TreeNode::LabelNumber(_)
            | TreeNode::Int(_)
            | TreeNode::Char(_)
            | TreeNode::Text(_)
            | TreeNode::EmptyRecord
            | TreeNode::Unit
            | TreeNode::EmptyList
            | TreeNode::Wild
            | TreeNode::PatEmptyRecord
            | TreeNode::PatUnit
            | TreeNode::PatEmptyList
            | TreeNode::EmptyRecordTy => 0,
            TreeNode::Type
            | TreeNode::Datatype
            | TreeNode::Exception
            | TreeNode::Directive(_)
            | TreeNode::TyVarSeq
            | TreeNode::Rec
            | TreeNode::ConBind
            | TreeNode::ExBind
            | TreeNode::Op
            | TreeNode::Raise
            | TreeNode::Fn
            | TreeNode::Record
            | TreeNode::List
            | TreeNode::Paren
            | TreeNode::PatRecord
            | TreeNode::PatList
            | TreeNode::PatParen
            | TreeNode::PunRow
            | TreeNode::RecordTy
            | TreeNode::ParenTy => 1,
            TreeNode::Val
            | TreeNode::Fun
            | TreeNode::Local
            | TreeNode::MoreDecs
            | TreeNode::MoreVids
            | TreeNode::MoreTyVars
            | TreeNode::ValBind
            | TreeNode::MoreValBinds
            | TreeNode::MoreFunBinds
            | TreeNode::MoreClauses
            | TreeNode::Clause
            | TreeNode::Head
            | TreeNode::MoreAtpats
            | TreeNode::MoreTypBinds
            | TreeNode::MoreDatBinds
            | TreeNode::ConBindOf
            | TreeNode::MoreConBinds
            | TreeNode::ExBindOf
            | TreeNode::ExBindIs
            | TreeNode::MoreExBinds
            | TreeNode::Handle
            | TreeNode::Orelse
            | TreeNode::Andalso
            | TreeNode::Typed
            | TreeNode::While
            | TreeNode::Case
            | TreeNode::Apply
            | TreeNode::Row
            | TreeNode::MoreRows
            | TreeNode::Tuple
            | TreeNode::Sequence
            | TreeNode::MoreItems
            | TreeNode::Let
            | TreeNode::MoreSeq
            | TreeNode::Rule
            | TreeNode::MoreRules
            | TreeNode::Layered
            | TreeNode::TypedPat
            | TreeNode::ConPat
            | TreeNode::PatTuple
            | TreeNode::MorePats
            | TreeNode::PatRow
            | TreeNode::TypedPunRow
            | TreeNode::PunRowAs
            | TreeNode::MorePatRows
            | TreeNode::ArrowTy
            | TreeNode::ProductTy
            | TreeNode::MoreFactors
            | TreeNode::TyRow
            | TreeNode::MoreTyRows
            | TreeNode::ConTy
            | TreeNode::MoreTys => 2,
            TreeNode::TypedClause
            | TreeNode::InfixHead
            | TreeNode::ParenHead
            | TreeNode::TypBind
            | TreeNode::DatBind
            | TreeNode::If
            | TreeNode::InfixExp
            | TreeNode::TypedLayered
            | TreeNode::InfixPat
            | TreeNode::TypedPunRowAs
            | TreeNode::SeqConTy => 3,
            TreeNode::ParenHeadArgs => 4,
        }
    }
}
